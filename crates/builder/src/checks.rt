// Why a table, its entry and its given edges are refused (3 to 9).
ghost use Rattle.std.specs.Prelude.{◌≡◌, ◌||◌, [], ◌+◌, ◌<◌, ◌≤◌, eqb, length, get_or, IfOk};
ghost use Rattle.image.specs.Refusal.{refusal, unless};
ghost use Rattle.image.specs.Record.{edge_from};
ghost use Rattle.graph.specs.Error.{check_of};
ghost use Rattle.graph.specs.Fold.{checks};
ghost use Rattle.graph.specs.Flow.{Flow, is_call};
ghost use Rattle.graph.specs.Table.{entry_at};
ghost use Rattle.graph.specs.Transfer.{entries_of, table_of, size};
ghost use Rattle.graph.specs.Build.{order_check, instruction_check, table_check, entry_check, source_check, target_check, given_check};
ghost use Rattle.builder.specs.Code.{image_of};
ghost use Rattle.builder.specs.Cursor.{Sourced, cursor_at, visit_at};
ghost use Rattle.builder.specs.Ranges.{Ended};

use crate::code::Code;
use crate::cursor::{Cursor, Visit, cursor_after, cursor_start, given_at};
use crate::flow::{NEXT, is_call};
use crate::lookup::{find, put_hint};
use graph::error::AddressBuildError;
use image::record::Instruction;
use image::table::Table;

// The mode in which edges are given.
pub const GIVEN_EDGES: u64 = 2;

// The first refusal among those of the instructions: its end, its size, its order. On the way their addresses become hints. A table
// that is not refused has a greatest end of all: a range may end there, where no instruction starts.
#[tactic(auto, using(crate::proofs::Row::rows, crate::proofs::Sizes::sizes, crate::proofs::Row::row_end), unfolding(graph::specs::Build::table_check, graph::specs::Table::code_end_of))]
pub fn check_table(
    table: &Table<'_, Instruction>,
    hints: &mut [u16],
) -> Result<u64, AddressBuildError>
    ensures check { check_of result ≡ table_check (entries_of table.now) }
    ensures ended { IfOk result (λ end. Ended (entries_of table.now) end) }
{
    let n = table.len();
    let mut greatest: u64 = 0;
    for p in 0..n {
        check_instruction(table, hints, p)?;
        greatest = greatest.max(table.get(p).end);
    }
    Ok(greatest)
}

#[tactic(auto, using(graph::proofs::TableLaws::entry_is), unfolding(graph::specs::Build::instruction_check, graph::specs::Transfer::table_entry))]
fn check_instruction(
    table: &Table<'_, Instruction>,
    hints: &mut [u16],
    p: usize,
) -> Result<(), AddressBuildError>
    requires p_in { p < length table.now }
    ensures { check_of result ≡ instruction_check (entries_of table.now) p }
{
    let i = table.get(p);
    let address = i.address;
    put_hint(hints, address, p);
    if !i.has_end {
        return Err(AddressBuildError::AddressOverflow { address });
    }
    if i.end <= address {
        return Err(AddressBuildError::ZeroSizeInstruction { address });
    }
    check_order(table, p, address)
}

// The instruction at p, which starts at `address`, stands behind the one before it.
#[tactic(auto, using(graph::proofs::TableLaws::entry_is), unfolding(graph::specs::Build::order_check, graph::specs::Transfer::table_entry))]
fn check_order(
    table: &Table<'_, Instruction>,
    p: usize,
    address: u64,
) -> Result<(), AddressBuildError>
    requires p_in { p < length table.now }
    requires address { address ≡ (entry_at (entries_of table.now) p).address }
    ensures { check_of result ≡ order_check (entries_of table.now) p }
{
    if p == 0 {
        return Ok(());
    }
    let previous = table.get(p - 1).address;
    if previous < address {
        return Ok(());
    }
    Err(AddressBuildError::UnorderedInstruction { previous, address })
}

// The entry, if there is one, is a start.
#[tactic(auto, unfolding(graph::specs::Build::entry_check))]
pub fn check_entry(code: &Code<'_>) -> Result<(), AddressBuildError>
    ensures { check_of result ≡ entry_check (image_of code.now) }
{
    let header = code.image.layout.header;
    if !header.has_entry {
        return Ok(());
    }
    let address = header.entry;
    let Some(_) = find(code, address) else {
        return Err(AddressBuildError::MissingEntry { address });
    };
    Ok(())
}

// Each given source is a start.
#[tactic(auto, using(crate::proofs::Row::rows), unfolding(graph::specs::Build::source_check, graph::specs::Transfer::source_at))]
pub fn check_sources(code: &Code<'_>) -> Result<(), AddressBuildError>
    ensures { check_of result ≡ checks (source_check (image_of code.now)) (length (image_of code.now).sources) }
{
    let sources = code.image.sources();
    let n = sources.len();
    for i in 0..n {
        let address = sources.get(i).address;
        let Some(_) = find(code, address) else {
            return Err(AddressBuildError::MissingGivenSource { address });
        };
    }
    Ok(())
}

// The targets of the given edges are starts, and where nothing is given the flow does without. The other modes give nothing.
#[tactic(auto, using(crate::proofs::Row::rows, crate::proofs::ScanLaws::scan, crate::proofs::GivenLaws::not_given))]
pub fn check_given(code: &Code<'_>) -> Result<(), AddressBuildError>
    requires sourced { Sourced (image_of code.now) }
    ensures { check_of result ≡ checks (given_check (image_of code.now)) (size (image_of code.now)) }
{
    if code.image.layout.header.mode != GIVEN_EDGES {
        return Ok(());
    }
    let n = code.size();
    let mut c = cursor_start();
    for p in 0..n {
        let i = code.instruction(p);
        let given = given_at(code, c.source, i.address);
        let next = cursor_after(c, i.cases, given);
        let visit = Visit {
            instruction: i,
            given,
            next,
        };
        check_visit(code, c, visit)?;
        c = next;
    }
    Ok(())
}

fn check_visit(code: &Code<'_>, c: Cursor, visit: Visit) -> Result<(), AddressBuildError>
    requires sourced { Sourced (image_of code.now) }
    requires mode { (image_of code.now).header.mode ≡ 2 }
    requires cursor { c ≡ cursor_at (image_of code.now) c.at }
    requires at_in { c.at < size (image_of code.now) }
    requires visit { visit ≡ visit_at (image_of code.now) c.at }
    ensures { check_of result ≡ given_check (image_of code.now) c.at }
{
    let instruction = visit.instruction;
    match visit.given {
        Some(n) => check_targets(code, instruction.address, c.edge, n),
        None => check_flow(instruction),
    }
}

// The targets of n given edges, the first of which is `edge`.
#[tactic(auto, using(crate::proofs::Row::rows))]
fn check_targets(
    code: &Code<'_>,
    source: u64,
    edge: usize,
    n: usize,
) -> Result<(), AddressBuildError>
    requires edges_in { edge + n ≤ length (image_of code.now).edges }
    ensures { check_of result ≡ checks (λ k. target_check (table_of (image_of code.now)) source (get_or (image_of code.now).edges (edge + k) (edge_from [] 0))) n }
{
    for k in 0..n {
        let target = code.edge(edge + k).target;
        let Some(_) = find(code, target) else {
            return Err(AddressBuildError::MissingGivenTarget { source, target });
        };
    }
    Ok(())
}

fn check_flow(i: Instruction) -> Result<(), AddressBuildError>
    ensures { check_of result ≡ unless (eqb i.flow Flow.next || is_call i.flow) (refusal 9 i.address 0) }
{
    if i.flow == NEXT || is_call(i.flow) {
        return Ok(());
    }
    Err(AddressBuildError::TransferWithoutGivenEdges { address: i.address })
}
