// Parts of funclets: the blocks that are reached from an entry, and those of them that return.
ghost use Rattle.std.specs.Prelude.{◌≡◌, true, not, ◌&&◌, ℕ, ◌+◌, ◌*◌, ◌≤◌, ◌<◌, eqb, length};
ghost use Rattle.image.specs.Refusal.{clear};
ghost use Rattle.image.specs.Image.{routes_in};
ghost use Rattle.image.specs.Deal.{routes_of};
ghost use Rattle.graph.specs.BlockSet.{none};
ghost use Rattle.graph.specs.Graph.{edge};
ghost use Rattle.graph.specs.Lent.{held_of};
ghost use Rattle.graph.specs.Search.{Ends, Linked, Roomy, Follows};
ghost use Rattle.graph.specs.WellFormed.{is_built};
ghost use Rattle.addition.specs.Lists.{keep, is_empty};
ghost use Rattle.addition.specs.Part.{ordinary, outgoing, returning as is_returning};
ghost use Rattle.addition.specs.Add.{funclet_check};
ghost use Rattle.unwind.specs.Stands.{Stands};
ghost use Rattle.unwind.specs.PartSearch.{Barriers, Returners, PartFrom, bounded, followed, Takes};
ghost use Rattle.unwind.specs.Placed.{set_at, SetChanged, funclet_at, Named, Entered};

use crate::blocks::last_of;
use crate::slots::{in_set, put_block};
use crate::tries::store::{node_in, number_in};
use graph::blockset::{has_in, lowest_below, put_in, take_from};
use graph::record::Edge;
use graph::store::Graph;
use graph::store::blocks::block_count;
use graph::store::edges::edge_in;
use image::section::RouteLayout;

// Kinds and flows are numbers, since C reads the graph. 'without an ExceptionUnwind or Call edge'
const CALL: u64 = 5;

pub const EXCEPTION_UNWIND: u64 = 7;

// Flows that may end a returning block.
const RETURN: u64 = 1;

const JUMP: u64 = 6;

fn is_ordinary(kind: u64) -> bool
    ensures { result ≡ (not (eqb kind 7) && not (eqb kind 5)) }
{
    kind != EXCEPTION_UNWIND && kind != CALL
}

// The built blocks that start a funclet of the routes, put into an empty set: the entries of the n nodes but the roots.
// Of the graph and the routes nothing is read; the contract speaks of them.
pub fn funclet_entries(
    g: &Graph,
    s: &[u8],
    y: RouteLayout,
    nodes: &[u16],
    n: usize,
    heads: &[u16],
    set: &mut [u64; 16],
)
    requires stands { Stands (held_of g.now).graph }
    requires named { Named (routes_in s.now y) nodes.now n }
    requires leads { (i : ℕ) → i < n → funclet_check (held_of g.now).graph (funclet_at (routes_in s.now y) nodes.now i) ≡ clear }
    requires entered { Entered (held_of g.now).graph (routes_in s.now y) nodes.now heads.now n }
    requires nodes_fit { 6 * n ≤ length nodes.now }
    requires heads_fit { n ≤ length heads.now }
    requires empty { set.old ≡ none }
    ensures { Barriers (held_of g.now).graph (routes_of (routes_in s.now y)) set.new }
{
    // A node is a number: it has six numbers in one slice, and one in the other.
    for i in 0..n {
        if node_in(nodes, i).funclet != 0 {
            put_in(set, number_in(heads, i));
        }
    }
}

// Whether an ordinary edge goes out of block b, along edges that are linked by their source.
fn leads_on(g: &Graph, head: &[u16], next: &[u16], b: usize) -> bool
    requires stands { Stands (held_of g.now).graph }
    requires roomy { Roomy (held_of g.now).graph head.now next.now }
    requires linked { Linked (held_of g.now).graph head.now next.now 0 }
    requires block { b < length (held_of g.now).graph.blocks }
    ensures { result ≡ not (is_empty (keep ordinary (outgoing (held_of g.now).graph b))) }
{
    // There is no slice to go over: each link says where the next one stands.
    let mut at = number_in(head, b);
    while at != 0 {
        let e = at - 1;
        if is_ordinary(edge_in(g, e).kind) {
            return true;
        }
        at = number_in(next, e);
    }
    false
}

// Whether block b returns. Its edges are looked at only if it ends in a jump.
#[tactic(auto, unfolding(addition::specs::Part::returning))]
fn returning(g: &Graph, head: &[u16], next: &[u16], b: usize) -> bool
    requires stands { Stands (held_of g.now).graph }
    requires roomy { Roomy (held_of g.now).graph head.now next.now }
    requires linked { Linked (held_of g.now).graph head.now next.now 0 }
    requires block { b < length (held_of g.now).graph.blocks }
    ensures { result ≡ is_returning (held_of g.now).graph b }
{
    let flow = last_of(g, b).flow;
    flow == RETURN || flow == JUMP && !leads_on(g, head, next, b)
}

// The blocks that return, put into an empty set.
pub fn returning_blocks(g: &Graph, head: &[u16], next: &[u16], set: &mut [u64; 16])
    requires stands { Stands (held_of g.now).graph }
    requires empty { set.old ≡ none }
    requires roomy { Roomy (held_of g.now).graph head.now next.now }
    requires linked { Linked (held_of g.now).graph head.now next.now 0 }
    ensures { Returners (held_of g.now).graph set.new }
{
    let n = block_count(g);
    for b in 0..n {
        if returning(g, head, next, b) {
            put_in(set, b);
        }
    }
}

// Puts into set i of `parts`, which is empty, the part of the funclet whose entry is block `start`, along edges that are linked by
// their source.
pub fn part_of(
    g: &Graph,
    head: &[u16],
    next: &[u16],
    barriers: &[u64; 16],
    start: usize,
    parts: &mut [u64],
    i: usize,
)
    requires stands { Stands (held_of g.now).graph }
    requires roomy { Roomy (held_of g.now).graph head.now next.now }
    requires linked { Linked (held_of g.now).graph head.now next.now 0 }
    requires start_in { start < length (held_of g.now).graph.blocks }
    requires start_built { is_built (held_of g.now).graph start ≡ true }
    requires parts_fit { 16 * i + 16 ≤ length parts.old }
    requires empty { set_at parts.old i ≡ none }
    ensures part { PartFrom (held_of g.now).graph barriers.now start (set_at parts.new i) }
    ensures others { SetChanged parts.old i parts.new }
{
    let blocks = block_count(g);
    let mut pending = [0u64; 16];
    put_block(parts, i, start);
    put_in(&mut pending, start);
    while let Some(b) = lowest_below(&pending, blocks) {
        take_from(&mut pending, b);
        follow(g, head, next, barriers, b, parts, i, &mut pending);
    }
}

// Follows the edges from b; what is seen is set i.
fn follow(
    g: &Graph,
    head: &[u16],
    next: &[u16],
    barriers: &[u64; 16],
    b: usize,
    parts: &mut [u64],
    i: usize,
    pending: &mut [u64; 16],
)
    requires stands { Stands (held_of g.now).graph }
    requires roomy { Roomy (held_of g.now).graph head.now next.now }
    requires linked { Linked (held_of g.now).graph head.now next.now 0 }
    requires block { b < length (held_of g.now).graph.blocks }
    requires parts_fit { 16 * i + 16 ≤ length parts.old }
    ensures follows { (e : ℕ) → Follows (bounded (held_of g.now).graph barriers.now e) b (length (held_of g.now).graph.edges) (set_at parts.old i) pending.old (set_at parts.new i) pending.new }
    ensures others { SetChanged parts.old i parts.new }
{
    // There is no slice to go over: each link says where the next one stands.
    let mut at = head[b] as usize;
    while at != 0 {
        let e = at - 1;
        take_edge(g, e, barriers, parts, i, pending);
        at = next[e] as usize;
    }
}

// Edge k: where it is followed, its target is seen, and is pending unless it was seen before.
fn take_edge(
    g: &Graph,
    k: usize,
    barriers: &[u64; 16],
    parts: &mut [u64],
    i: usize,
    pending: &mut [u64; 16],
)
    requires edge { k < length (held_of g.now).graph.edges }
    requires ends { Ends (held_of g.now).graph }
    requires parts_fit { 16 * i + 16 ≤ length parts.old }
    ensures takes { Takes barriers.now (edge (held_of g.now).graph k) (set_at parts.old i) pending.old (set_at parts.new i) pending.new }
    ensures others { SetChanged parts.old i parts.new }
{
    let e = edge_in(g, k);
    let t = e.target as usize;
    if is_followed(barriers, &e) && !in_set(parts, i, t) {
        put_block(parts, i, t);
        put_in(pending, t);
    }
}

// Whether an edge is followed: it is ordinary and enters no barrier.
#[tactic(auto, unfolding(crate::specs::PartSearch::followed, addition::specs::Part::ordinary))]
fn is_followed(barriers: &[u64; 16], e: &Edge) -> bool
    ensures { result ≡ followed barriers.now e.now }
{
    is_ordinary(e.kind) && !has_in(barriers, e.target as usize)
}
