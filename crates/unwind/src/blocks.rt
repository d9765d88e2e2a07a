// Look-up in a graph's own table and among its built blocks, which stand in the table's order.
ghost use Rattle.std.specs.Prelude.{◌≡◌, ◌&&◌, ◌+◌, ◌*◌, ◌≤◌, ◌<◌, eqb, ltb, length};
ghost use Rattle.graph.specs.Graph.{block};
ghost use Rattle.graph.specs.Lent.{held_of};
ghost use Rattle.graph.specs.Table.{below, is_start};
ghost use Rattle.graph.specs.Lookup.{Finds};
ghost use Rattle.graph.specs.WellFormed.{Built};
ghost use Rattle.addition.specs.Blocks.{first_of, last_of, leading};
ghost use Rattle.unwind.specs.Stands.{Stands, Before, Guards, led};
ghost use Rattle.unwind.specs.Placed.{set_at, SetChanged};
ghost use Rattle.unwind.specs.Wanted.{RunsFit};

use crate::slots::{empty_set, put_block};
use crate::tries::store::number_at;
use graph::error::AddressBuildError;
use graph::record::TableEntry;
use graph::store::Graph;
use graph::store::blocks::{block_in, blocks};
use graph::store::table::{entries, table_at, table_count, table_in};

// How many instructions start below a.
pub fn position(g: &Graph, a: u64) -> usize
    requires { Stands (held_of g.now).graph }
    ensures { result ≡ below (held_of g.now).graph.table a }
{
    entries(g).partition_point(|e| e.address < a)
}

// The position of the instruction that starts at a.
fn find_start(g: &Graph, a: u64) -> Option<usize>
    requires { Stands (held_of g.now).graph }
    ensures { Finds (held_of g.now).graph.table a result }
{
    let p = position(g, a);
    if is_start(g, p, a) {
        return Some(p);
    }
    None
}

// Whether an instruction starts at a, whose position is p.
pub fn is_start(g: &Graph, p: usize, a: u64) -> bool
    requires stands { Stands (held_of g.now).graph }
    requires position { p ≡ below (held_of g.now).graph.table a }
    ensures { result ≡ is_start (held_of g.now).graph.table a }
{
    p < table_count(g) && table_in(g, p).address == a
}

// How many of the built blocks begin before position p: the next one, if any, begins at p or behind it.
pub fn block_from(g: &Graph, built: usize, p: usize) -> usize
    requires stands { Stands (held_of g.now).graph }
    requires built { Built (held_of g.now).graph built }
    ensures { Before (held_of g.now).graph built p result }
{
    blocks(g)[..built].partition_point(|r| r.first < p as u64)
}

// The hints of the built blocks: where the block that an address starts is likely to stand. Whatever the hints are, an
// answer is the same: each is tried before it is believed.
pub fn hint_blocks(g: &Graph, built: usize, hints: &mut [u16])
    requires stands { Stands (held_of g.now).graph }
    requires built { Built (held_of g.now).graph built }
{
    // The block of an empty table has no first instruction.
    if table_count(g) == 0 {
        return;
    }
    let n = hints.len();
    for b in 0..built {
        let slot = hint_slot(n, first_of(g, b).address);
        if slot < n {
            hints[slot] = (b % 65536) as u16;
        }
    }
}

// The slot of an address among n hints: as far along them as the mixed address is along 32 bits.
fn hint_slot(n: usize, a: u64) -> usize {
    let mixed = a % 0x100000000 * 0x9E3779B9 % 0x100000000;
    (mixed * (n as u64 % 0x100000000) / 0x100000000) as usize
}

// The built block that a starts, or 14 or 17: by its hint, or else by halving.
pub fn leading_block(
    g: &Graph,
    built: usize,
    hints: &[u16],
    a: u64,
) -> Result<usize, AddressBuildError>
    requires stands { Stands (held_of g.now).graph }
    requires built { Built (held_of g.now).graph built }
    ensures { result ≡ led a (leading (held_of g.now).graph a) }
{
    let b = number_at(hints, hint_slot(hints.len(), a));
    if starts_at(g, built, b, a) {
        return Ok(b);
    }
    search(g, built, a)
}

// Whether b is a built block whose first instruction starts at a.
#[tactic(auto, unfolding(addition::specs::Blocks::first_of))]
fn starts_at(g: &Graph, built: usize, b: usize, a: u64) -> bool
    requires { built ≤ length (held_of g.now).graph.blocks }
    ensures { result ≡ (ltb b built && ltb (block (held_of g.now).graph b).first (length (held_of g.now).graph.table) && eqb (first_of (held_of g.now).graph b).address a) }
{
    if built <= b {
        return false;
    }
    let p = block_in(g, b).first as usize;
    p < table_count(g) && table_in(g, p).address == a
}

// By halving.
fn search(g: &Graph, built: usize, a: u64) -> Result<usize, AddressBuildError>
    requires stands { Stands (held_of g.now).graph }
    requires built { Built (held_of g.now).graph built }
    ensures { result ≡ led a (leading (held_of g.now).graph a) }
{
    let Some(p) = find_start(g, a) else {
        return Err(AddressBuildError::MissingRouteEntry { address: a });
    };
    let b = block_from(g, built, p);
    if b < built && block_in(g, b).first == p as u64 {
        return Ok(b);
    }
    Err(AddressBuildError::RouteAddressNotBlockStart { address: a })
}

// Into set r the built blocks that a route from `start` to `end` covers and that keep their exception edge.
pub fn guard_blocks(g: &Graph, built: usize, start: u64, end: u64, guards: &mut [u64], r: usize)
    requires stands { Stands (held_of g.now).graph }
    requires built { Built (held_of g.now).graph built }
    requires guards_fit { 16 * r + 16 ≤ length guards.old }
    ensures guards { Guards (held_of g.now).graph start end (set_at guards.new r) }
    ensures others { SetChanged guards.old r guards.new }
{
    empty_set(guards, r);
    // The block of an empty table has no first instruction.
    if table_count(g) == 0 {
        return;
    }
    let first = block_from(g, built, position(g, start));
    for b in first..built {
        let entry = first_of(g, b);
        if end <= entry.address {
            return;
        }
        if entry.keeps == 1 {
            put_block(guards, r, b);
        }
    }
}

// The first instruction of block b, which stands in the table.
#[tactic(auto, unfolding(addition::specs::Blocks::first_of))]
pub fn first_of(g: &Graph, b: usize) -> TableEntry
    requires { (b < length (held_of g.now).graph.blocks) × ((block (held_of g.now).graph b).first < length (held_of g.now).graph.table) }
    ensures { result ≡ first_of (held_of g.now).graph b }
{
    table_in(g, block_in(g, b).first as usize)
}

// The last instruction of block b.
#[tactic(auto, unfolding(addition::specs::Blocks::last_of))]
pub fn last_of(g: &Graph, b: usize) -> TableEntry
    requires { RunsFit (held_of g.now).graph × (b < length (held_of g.now).graph.blocks) }
    ensures { result ≡ last_of (held_of g.now).graph b }
{
    let run = block_in(g, b);
    let end = run.first + run.count;
    if end == 0 {
        return table_at(g, 0);
    }
    table_in(g, (end - 1) as usize)
}
