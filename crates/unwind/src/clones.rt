// Copies of blocks, and of the edges that go out of them, node by node. `clone_region`. A node is a number, with one number in
// `bases` and sixteen in `parts`.
ghost use Rattle.std.specs.Prelude.{◌≡◌, true, [], map, ℕ, ◌≤◌, ◌<◌, length};
ghost use Rattle.graph.specs.Graph.{block};
ghost use Rattle.graph.specs.Lent.{held_of};
ghost use Rattle.graph.specs.BlockSet.{member};
ghost use Rattle.graph.specs.Stored.{Stored};
ghost use Rattle.graph.specs.Adding.{with_blocks, Added};
ghost use Rattle.graph.specs.Search.{Ends, Linked, Roomy};
ghost use Rattle.addition.specs.Lists.{joined};
ghost use Rattle.addition.specs.Part.{outgoing};
ghost use Rattle.unwind.specs.Clones.{list_of, copy_of, block_copies, edge_copies, first_edges, LinkedTo, SetsIn};

use crate::slots::set_at;
use crate::tries::store::number_in;
use graph::blockset::{has_in, next_in, rank_in};
use graph::record::Edge;
use graph::store::Graph;
use graph::store::blocks::{add_block, block_count, block_in};
use graph::store::edges::{add_edge, edge_count, edge_in};

// How many edges the copies of n nodes add.
pub fn clone_edge_count(
    g: &Graph,
    head: &[u16],
    next: &[u16],
    bases: &[u16],
    parts: &[u64],
    n: usize,
) -> usize
    requires ends { Ends (held_of g.now).graph }
    requires roomy { Roomy (held_of g.now).graph head.now next.now }
    requires linked { Linked (held_of g.now).graph head.now next.now 0 }
    requires few { n ≤ 1024 }
    requires sets_in { SetsIn (held_of g.now).graph parts.now n }
    requires bases_fit { n ≤ length bases.now }
    ensures { result ≡ length (edge_copies (held_of g.now).graph bases.now parts.now n) }
{
    let mut count = 0;
    for i in 0..n {
        if number_in(bases, i) != 0 {
            let part = set_at(parts, i);
            count += edges_out(g, head, next, &part);
        }
    }
    count
}

// How many edges go out of the blocks of a set.
fn edges_out(g: &Graph, head: &[u16], next: &[u16], set: &[u64; 16]) -> usize
    requires ends { Ends (held_of g.now).graph }
    requires roomy { Roomy (held_of g.now).graph head.now next.now }
    requires linked { Linked (held_of g.now).graph head.now next.now 0 }
    requires blocks { (b : ℕ) → member set.now b ≡ true → b < length (held_of g.now).graph.blocks }
    ensures counts { result ≡ length (joined (outgoing (held_of g.now).graph) (list_of set.now)) }
    ensures small { result ≤ 4194304 }
{
    let blocks = block_count(g);
    let mut from = 0;
    let mut count = 0;
    while let Some(b) = next_in(set, from, blocks) {
        from = b + 1;
        count += out_degree(g, head, next, b);
    }
    count
}

// How many edges go out of block b.
fn out_degree(g: &Graph, head: &[u16], next: &[u16], b: usize) -> usize
    requires ends { Ends (held_of g.now).graph }
    requires roomy { Roomy (held_of g.now).graph head.now next.now }
    requires linked { Linked (held_of g.now).graph head.now next.now 0 }
    requires block { b < length head.now }
    ensures counts { result ≡ length (outgoing (held_of g.now).graph b) }
    ensures small { result ≤ 4096 }
{
    // There is no slice to go over: each link says where the next one stands.
    let mut count = 0;
    let mut at = number_in(head, b);
    while at != 0 {
        count += 1;
        at = number_in(next, at - 1);
    }
    count
}

// Adds the copies of the edges of n nodes, before those of the blocks.
pub fn add_clone_edges(
    g: &mut Graph,
    head: &[u16],
    next: &[u16],
    bases: &[u16],
    parts: &[u64],
    n: usize,
)
    requires ends { Ends (held_of g.old).graph }
    requires roomy { Roomy (held_of g.old).graph head.now next.now }
    requires linked { Linked (held_of g.old).graph head.now next.now 0 }
    requires sets_in { SetsIn (held_of g.old).graph parts.now n }
    requires bases_fit { n ≤ length bases.now }
    ensures { Added g.old g.new (edge_copies (held_of g.old).graph bases.now parts.now n) [] [] }
{
    let m = edge_count(g);
    for i in 0..n {
        let base = number_in(bases, i);
        if base != 0 {
            let part = set_at(parts, i);
            copy_edges(g, m, head, next, base, &part);
        }
    }
}

// Adds those of the edges out of the blocks of a set, of which the first is copied as block `base`. The first m edges are linked.
fn copy_edges(g: &mut Graph, m: usize, head: &[u16], next: &[u16], base: usize, set: &[u64; 16])
    requires linked { LinkedTo (held_of g.old).graph m head.now next.now }
    requires base_small { base < 65536 }
    requires blocks { (b : ℕ) → member set.now b ≡ true → b < length (held_of g.old).graph.blocks }
    ensures { Added g.old g.new (joined (λ b. map (copy_of base set.now) (outgoing (first_edges (held_of g.old).graph m) b)) (list_of set.now)) [] [] }
{
    let blocks = block_count(g);
    let mut from = 0;
    while let Some(b) = next_in(set, from, blocks) {
        from = b + 1;
        copy_from(g, m, head, next, base, set, b);
    }
}

// Adds those of the edges out of block b.
fn copy_from(
    g: &mut Graph,
    m: usize,
    head: &[u16],
    next: &[u16],
    base: usize,
    set: &[u64; 16],
    b: usize,
)
    requires linked { LinkedTo (held_of g.old).graph m head.now next.now }
    requires base_small { base < 65536 }
    requires block { b < length head.now }
    ensures { Added g.old g.new (map (copy_of base set.now) (outgoing (first_edges (held_of g.old).graph m) b)) [] [] }
{
    // There is no slice to go over: each link says where the next one stands.
    let mut at = number_in(head, b);
    while at != 0 {
        let e = at - 1;
        let copy = copy_of(base, set, edge_in(g, e));
        add_edge(g, copy);
        at = number_in(next, e);
    }
}

// The copy of an edge, from its source's copy, to that of its target if that is copied.
fn copy_of(base: usize, set: &[u64; 16], e: Edge) -> Edge
    requires { base < 65536 }
    ensures { result ≡ copy_of base set.now e }
{
    let source = base + rank_in(set, e.source as usize);
    let target = if has_in(set, e.target as usize) {
        base + rank_in(set, e.target as usize)
    } else {
        e.target as usize
    };
    Edge {
        source: source as u64,
        target: target as u64,
        kind: e.kind,
        role: e.role,
        number: e.number,
        key: e.key,
        source_address: e.source_address,
        target_address: e.target_address,
    }
}

// Adds the copies of the blocks of n nodes.
pub fn add_clone_blocks(g: &mut Graph, bases: &[u16], parts: &[u64], n: usize)
    requires sets_in { SetsIn (held_of g.old).graph parts.now n }
    requires bases_fit { n ≤ length bases.now }
    ensures { Stored g.old g.new (with_blocks (held_of g.old) (block_copies (held_of g.old).graph bases.now parts.now n)) }
{
    for i in 0..n {
        if number_in(bases, i) != 0 {
            let part = set_at(parts, i);
            copy_blocks(g, &part);
        }
    }
}

// Adds those of the blocks of a set.
fn copy_blocks(g: &mut Graph, set: &[u64; 16])
    requires { (b : ℕ) → member set.now b ≡ true → b < length (held_of g.old).graph.blocks }
    ensures { Stored g.old g.new (with_blocks (held_of g.old) (map (block (held_of g.old).graph) (list_of set.now))) }
{
    let blocks = block_count(g);
    let mut from = 0;
    while let Some(b) = next_in(set, from, blocks) {
        from = b + 1;
        let copy = block_in(g, b);
        add_block(g, copy);
    }
}
