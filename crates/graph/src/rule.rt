// Rule 21, 'the graph is none, unless all of this holds', asked of any graph that is lent: `is_graph`, and a function for each phrase.
ghost use Rattle.std.specs.Prelude.{◌≡◌, true, not, ◌&&◌, ◌||◌, eqb, ltb, leb, length};
ghost use Rattle.graph.specs.Fold.{some, all, sum};
ghost use Rattle.graph.specs.Build.{instruction_check, table_check};
ghost use Rattle.graph.specs.Graph.{block, edge, region, handler, unresolved_transfer, call_site};
ghost use Rattle.graph.specs.Table.{entry_at};
ghost use Rattle.graph.specs.Lent.{held_of};
ghost use Rattle.graph.specs.WellFormed.{passes, is_block, edge_ends_exist, within, region_blocks_exist, parents_exist, names_handler, same_reference, references_match, in_sets, Built, covers_table, repeats, copies_repeat, none_empty, well_formed};

use crate::blockset::all_below;
use crate::record::HandlerRecord;
use crate::store::blocks::{block_at, block_count, block_in, blocks};
use crate::store::calls::calls;
use crate::store::edges::edges;
use crate::store::handlers::{handler_at, handler_count, handlers};
use crate::store::regions::{region_at, region_count, regions};
use crate::store::table::{entries, table_at, table_count};
use crate::store::unresolved::transfers;
use crate::store::{Graph, entry, within_limits};

// Whether a graph is held: all of rule 21.
#[tactic(auto, unfolding(crate::specs::WellFormed::well_formed))]
pub fn is_graph(g: &Graph) -> bool
    ensures { result ≡ well_formed (held_of g.now) }
{
    within_limits(g)
        && table_passes(g)
        && is_block(g, entry(g))
        && edge_ends_exist(g)
        && region_blocks_exist(g)
        && parents_exist(g)
        && references_match(g)
        && in_sets(g)
        && covers_table(g)
        && none_empty(g)
        && copies_repeat(g)
}

// 'an instruction table .. that passes 3 to 5'
fn table_passes(g: &Graph) -> bool
    ensures { result ≡ passes (table_check (held_of g.now).graph.table) }
{
    (0..table_count(g)).all(|i| entry_passes(g, i))
}

fn entry_passes(g: &Graph, i: usize) -> bool
    ensures { result ≡ passes (instruction_check (held_of g.now).graph.table i) }
{
    let e = table_at(g, i);
    let alone = (e.has_end == 1) & (e.address < e.end);
    if i == 0 {
        return alone;
    }
    alone & (table_at(g, i - 1).address < e.address)
}

// 'entry, edge ends and the blocks and parents of regions exist'
#[tactic(auto, unfolding(crate::specs::WellFormed::is_block))]
fn is_block(g: &Graph, b: u64) -> bool
    ensures { result ≡ is_block (held_of g.now).graph b }
{
    b < block_count(g) as u64
}

fn edge_ends_exist(g: &Graph) -> bool
    ensures { result ≡ edge_ends_exist (held_of g.now).graph }
{
    edges(g)
        .iter()
        .all(|e| is_block(g, e.source) && is_block(g, e.target))
}

#[tactic(auto, unfolding(crate::specs::WellFormed::region_blocks_exist))]
fn region_blocks_exist(g: &Graph) -> bool
    ensures { result ≡ region_blocks_exist (held_of g.now).graph }
{
    protected_exist(g) & entries_exist(g)
}

fn protected_exist(g: &Graph) -> bool
    ensures { result ≡ all (λ i. within (length (held_of g.now).graph.blocks) (region (held_of g.now).graph i).protected) (length (held_of g.now).graph.regions) }
{
    let n = block_count(g);
    regions(g).iter().all(|r| all_below(&r.protected, n))
}

fn entries_exist(g: &Graph) -> bool
    ensures { result ≡ all (λ i. is_block (held_of g.now).graph (handler (held_of g.now).graph i).entry) (length (held_of g.now).graph.handlers) }
{
    handlers(g).iter().all(|h| is_block(g, h.entry))
}

fn parents_exist(g: &Graph) -> bool
    ensures { result ≡ parents_exist (held_of g.now).graph }
{
    let n = region_count(g) as u64;
    regions(g).iter().all(|r| r.has_parent == 0 || r.parent < n)
}

// 'each handler reference names a region's handler, and each such handler has exactly one'
#[tactic(auto, unfolding(crate::specs::WellFormed::references_match))]
fn references_match(g: &Graph) -> bool
    ensures { result ≡ references_match (held_of g.now).graph }
{
    all_name(g) & all_differ(g) & all_counted(g)
}

fn all_name(g: &Graph) -> bool
    ensures { result ≡ all (names_handler (held_of g.now).graph) (length (held_of g.now).graph.handlers) }
{
    handlers(g).iter().all(|h| names_handler(g, h))
}

fn names_handler(g: &Graph, h: &HandlerRecord) -> bool
    ensures { result ≡ (ltb h.now.region (length (held_of g.now).graph.regions) && ltb h.now.place (region (held_of g.now).graph h.now.region).handlers) }
{
    h.region < region_count(g) as u64 && h.place < region_at(g, h.region as usize).handlers
}

fn all_differ(g: &Graph) -> bool
    ensures { result ≡ all (λ h. not (some (λ i. same_reference (held_of g.now).graph i h) h)) (length (held_of g.now).graph.handlers) }
{
    (0..handler_count(g)).all(|i| !named_before(g, i))
}

fn named_before(g: &Graph, h: usize) -> bool
    ensures { result ≡ some (λ i. same_reference (held_of g.now).graph i h) h }
{
    (0..h).any(|i| same_reference(g, i, h))
}

#[tactic(auto, unfolding(crate::specs::WellFormed::same_reference))]
fn same_reference(g: &Graph, i: usize, h: usize) -> bool
    ensures { result ≡ same_reference (held_of g.now).graph i h }
{
    let a = handler_at(g, i);
    let b = handler_at(g, h);
    (a.region == b.region) & (a.place == b.place)
}

// Whether the regions count as many handlers as there are.
fn all_counted(g: &Graph) -> bool
    ensures { result ≡ eqb (sum (λ i. (region (held_of g.now).graph i).handlers) (length (held_of g.now).graph.regions)) (length (held_of g.now).graph.handlers) }
{
    let mut left = handler_count(g) as u64;
    for r in regions(g) {
        if left < r.handlers {
            return false;
        }
        left -= r.handlers;
    }
    left == 0
}

// 'flows, kinds and roles are in their sets', and flags are 0 or 1
#[tactic(auto, unfolding(crate::specs::WellFormed::in_sets))]
fn in_sets(g: &Graph) -> bool
    ensures { result ≡ in_sets (held_of g.now).graph }
{
    table_in_sets(g)
        & edges_in_sets(g)
        & regions_in_sets(g)
        & handlers_in_sets(g)
        & unresolved_in_sets(g)
        & calls_in_sets(g)
}

fn table_in_sets(g: &Graph) -> bool
    ensures { result ≡ all (λ i. leb (entry_at (held_of g.now).graph.table i).flow 12 && leb (entry_at (held_of g.now).graph.table i).keeps 1) (length (held_of g.now).graph.table) }
{
    entries(g).iter().all(|e| e.flow <= 12 && e.keeps <= 1)
}

fn edges_in_sets(g: &Graph) -> bool
    ensures { result ≡ all (λ i. leb (edge (held_of g.now).graph i).kind 7 && leb (edge (held_of g.now).graph i).role 11) (length (held_of g.now).graph.edges) }
{
    edges(g).iter().all(|e| e.kind <= 7 && e.role <= 11)
}

fn regions_in_sets(g: &Graph) -> bool
    ensures { result ≡ all (λ i. leb (region (held_of g.now).graph i).has_parent 1) (length (held_of g.now).graph.regions) }
{
    regions(g).iter().all(|r| r.has_parent <= 1)
}

fn handlers_in_sets(g: &Graph) -> bool
    ensures { result ≡ all (λ i. leb (handler (held_of g.now).graph i).kind 4) (length (held_of g.now).graph.handlers) }
{
    handlers(g).iter().all(|h| h.kind <= 4)
}

fn unresolved_in_sets(g: &Graph) -> bool
    ensures { result ≡ all (λ i. leb (unresolved_transfer (held_of g.now).graph i).role 9) (length (held_of g.now).graph.unresolved) }
{
    transfers(g).iter().all(|u| u.role <= 9)
}

fn calls_in_sets(g: &Graph) -> bool
    ensures { result ≡ all (λ i. leb (call_site (held_of g.now).graph i).has_target 1) (length (held_of g.now).graph.calls) }
{
    calls(g).iter().all(|c| c.has_target <= 1)
}

// 'built blocks cover the table in order'
fn covers_table(g: &Graph) -> bool
    ensures { result ≡ covers_table (held_of g.now).graph }
{
    let table = table_count(g) as u64;
    let mut filled = 0;
    for b in blocks(g) {
        if (b.first != filled) | (table - filled < b.count) {
            return false;
        }
        filled += b.count;
        if filled == table {
            return true;
        }
    }
    filled == table
}

// How many blocks are built: the first ones, until their runs fill the table.
pub fn built_count(g: &Graph) -> usize
    ensures { Built (held_of g.now).graph result }
{
    let mut left = table_count(g) as u64;
    for (i, b) in blocks(g).iter().enumerate() {
        if left <= b.count {
            return i + 1;
        }
        left -= b.count;
    }
    block_count(g)
}

// 'copies follow and repeat a built run', asked when the built blocks cover the table and none is empty
fn copies_repeat(g: &Graph) -> bool
    requires covers { covers_table (held_of g.now).graph ≡ true }
    requires none { none_empty (held_of g.now).graph ≡ true }
    ensures { result ≡ copies_repeat (held_of g.now).graph }
{
    let built = built_count(g);
    (built..block_count(g)).all(|b| repeats_built(g, b, built))
}

// Whether block b repeats a built one: found by halving, since the built ones rise.
fn repeats_built(g: &Graph, b: usize, built: usize) -> bool
    requires covers { covers_table (held_of g.now).graph ≡ true }
    requires none { none_empty (held_of g.now).graph ≡ true }
    requires built { Built (held_of g.now).graph built }
    ensures { result ≡ some (repeats (held_of g.now).graph b) (length (held_of g.now).graph.blocks) }
{
    let copy = block_at(g, b);
    let mut lo = 0;
    let mut hi = built;
    while lo < hi {
        let mid = lo + (hi - lo) / 2;
        let own = block_in(g, mid);
        if own.first == copy.first {
            return own.count == copy.count;
        }
        if own.first < copy.first {
            lo = mid + 1;
        } else {
            hi = mid;
        }
    }
    false
}

// 'only an empty table's block is empty'
#[tactic(auto, unfolding(crate::specs::WellFormed::none_empty))]
fn none_empty(g: &Graph) -> bool
    ensures { result ≡ none_empty (held_of g.now).graph }
{
    if table_count(g) == 0 {
        return block_count(g) == 1;
    }
    all_run(g)
}

fn all_run(g: &Graph) -> bool
    ensures { result ≡ all (λ i. ltb 0 (block (held_of g.now).graph i).count) (length (held_of g.now).graph.blocks) }
{
    blocks(g).iter().all(|b| 0 < b.count)
}
