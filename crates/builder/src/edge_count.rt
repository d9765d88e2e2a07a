// How many edges a build gives: 19, found before anything is stored.
//
// A bound by the counts of the sections decides nearly every image; where it does not, the edges are counted.
ghost use Rattle.std.specs.Prelude.{cond, [], ◌≡◌, ◌+◌, ◌<◌, ◌≤◌, leb, length, get_or};
ghost use Rattle.image.specs.Refusal.{clear, refusal, unless};
ghost use Rattle.image.specs.Record.{case_from};
ghost use Rattle.graph.specs.Error.{check_of};
ghost use Rattle.graph.specs.Fold.{count};
ghost use Rattle.graph.specs.Transfer.{word, size, instruction_at, case_transfer, slot_count};
ghost use Rattle.graph.specs.Edges.{resolved, edges_at, normal_edges, exception_edges, edges_of};
ghost use Rattle.graph.specs.Build.{handler_check};
ghost use Rattle.builder.specs.Code.{image_of};
ghost use Rattle.builder.specs.Slots.{transfer_in};
ghost use Rattle.builder.specs.Cursor.{Sourced, cursor_at};
ghost use Rattle.builder.specs.Marks.{Leading};
ghost use Rattle.builder.specs.Emit.{slot_edges, handler_edges};
ghost use Rattle.builder.specs.EdgeCount.{Kept};

use crate::code::{Checked, Code};
use crate::cursor::{Cursor, cursor_start, visit_at};
use crate::edges::{is_terminator, resolve};
use crate::flow::{SWITCH, flow_under};
use crate::ranges::range_check;
use crate::transfer::{Transfer, case_transfer, slot_transfer, slots_of};
use graph::error::AddressBuildError;
use graph::store::edges::MOST_EDGES;
use image::record::Instruction;

// Whether a build gives no more edges than a graph holds. Only mode 0 can give more.
#[tactic(auto, using(crate::proofs::CountLaws::counted_within))]
pub fn check_edge_count(checked: &Checked<'_>, marks: &[bool; 512]) -> Result<(), AddressBuildError>
    requires leading { Leading (image_of checked.now.code) marks.now }
    ensures { check_of result ≡ unless (leb (length (edges_of (image_of checked.now.code))) 4096) (refusal 19 0 0) }
{
    if checked.code.image.layout.header.mode != 0 {
        return Ok(());
    }
    let instructions = checked.code.size();
    let cases = checked.code.image.cases().len();
    let handlers = checked.code.handler_count();
    let normal_most = 2 * instructions + cases;
    if normal_most + handlers * instructions <= MOST_EDGES {
        return Ok(());
    }
    let exceptional = exception_count(checked);
    if normal_most + exceptional <= MOST_EDGES {
        return Ok(());
    }
    if normal_count(&checked.code, marks) + exceptional <= MOST_EDGES {
        return Ok(());
    }
    Err(AddressBuildError::TooManyEdges)
}

// How many exception edges the handlers have, in mode 0.
fn exception_count(checked: &Checked<'_>) -> usize
    requires mode { (image_of checked.now.code).header.mode ≡ 0 }
    ensures { result ≡ length (exception_edges (image_of checked.now.code)) }
{
    let kept = kept_before(&checked.code);
    let n = checked.code.handler_count();
    let mut edges: usize = 0;
    for h in 0..n {
        edges += kept_by(&checked.code, &kept, h);
    }
    edges
}

// How many of the instructions before each position keep their exception edge.
fn kept_before(code: &Code<'_>) -> [usize; 513]
    ensures { Kept (image_of code.now) result }
{
    let n = code.size();
    let mut kept = [0; 513];
    for p in 0..n {
        let i = code.instruction(p);
        kept[p + 1] = kept[p] + usize::from(i.keeps);
    }
    kept
}

// How many of the instructions that handler h protects keep their exception edge.
fn kept_by(code: &Code<'_>, kept: &[usize; 513], h: usize) -> usize
    requires checked { handler_check (image_of code.now) h ≡ clear }
    requires h_in { h < length (image_of code.now).handlers }
    requires kept { Kept (image_of code.now) kept.now }
    ensures { result ≡ length (handler_edges (image_of code.now) h) }
{
    let own = code.handler(h);
    let found = range_check(code, own.start, own.end);
    let Ok(range) = found else {
        return 0;
    };
    kept[range.past] - kept[range.first]
}

// How many normal edges the blocks' ends have, in mode 0: no edges are given there.
fn normal_count(code: &Code<'_>, marks: &[bool; 512]) -> usize
    requires sourced { Sourced (image_of code.now) }
    requires leading { Leading (image_of code.now) marks.now }
    requires mode { (image_of code.now).header.mode ≡ 0 }
    ensures { result ≡ length (normal_edges (image_of code.now)) }
{
    let n = code.size();
    let mut c = cursor_start();
    let mut edges: usize = 0;
    for p in 0..n {
        let visit = visit_at(code, c);
        edges += end_count(code, c, visit.instruction, is_terminator(marks, n, p));
        c = visit.next;
    }
    edges
}

// Those of the instruction at a cursor, where it ends its block.
fn end_count(code: &Code<'_>, c: Cursor, i: Instruction, ends: bool) -> usize
    requires sourced { Sourced (image_of code.now) }
    requires mode { (image_of code.now).header.mode ≡ 0 }
    requires cursor { c ≡ cursor_at (image_of code.now) c.at }
    requires at_in { c.at < size (image_of code.now) }
    requires instruction { i ≡ instruction_at (image_of code.now) c.at }
    ensures { result ≡ length (cond ends (edges_at (image_of code.now) c.at) []) }
{
    if ends {
        return transfer_count(code, c, i);
    }
    0
}

// How many transfers of the instruction at a cursor are resolved.
fn transfer_count(code: &Code<'_>, c: Cursor, i: Instruction) -> usize
    requires sourced { Sourced (image_of code.now) }
    requires cursor { c ≡ cursor_at (image_of code.now) c.at }
    requires at_in { c.at < size (image_of code.now) }
    requires instruction { i ≡ instruction_at (image_of code.now) c.at }
    ensures { result ≡ length (slot_edges (image_of code.now) c.at (slot_count (image_of code.now) c.at)) }
{
    let flow = flow_under(code.image.layout.header.calls, i.flow);
    let slots = slots_of(flow);
    let first = resolves(code, slot_transfer(i, slots.0));
    if flow == SWITCH {
        return first + case_count(code, c.case, i.cases);
    }
    first + resolves(code, slot_transfer(i, slots.1))
}

// How many of the n cases from `first` on are resolved.
fn case_count(code: &Code<'_>, first: usize, n: usize) -> usize
    requires most { first + n ≤ 512 }
    requires cases_in { first + n ≤ length (image_of code.now).cases }
    ensures { result ≡ count (λ k. resolved (image_of code.now) (case_transfer (get_or (image_of code.now).cases (first + k) (case_from [] 0)) k)) n }
{
    let mut edges: usize = 0;
    for k in 0..n {
        let case = code.case(first + k);
        edges += resolves(code, case_transfer(case, k));
    }
    edges
}

// One where a transfer is resolved, else none.
fn resolves(code: &Code<'_>, x: Transfer) -> usize
    ensures { result ≡ word (resolved (image_of code.now) (transfer_in x)) }
{
    usize::from(resolve(code, x).is_some())
}
