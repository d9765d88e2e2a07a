// The most ways out of blocks that routes can give: there are no more hops, lists of hops or route edges.
ghost use Rattle.std.specs.Prelude.{◌≡◌, ℕ, ◌+◌, ◌*◌, ◌≤◌, ◌<◌, length, get_or};
ghost use Rattle.graph.specs.Fold.{sum};
ghost use Rattle.unwind.specs.Nodes.{ways_of};
ghost use Rattle.unwind.specs.Placed.{returns_in};
ghost use Rattle.unwind.specs.Most.{guarded_ways, returned_ways};

use crate::hops::HOP_MOST;
use crate::slots::{members_in, members_of};
use crate::tries::store::{Counts, node_in, number_in};

// Of each route out of the blocks that it guards, and of each node out of those from which it returns. No two nodes share an
// edge or an end. Where all edges and ends out of all blocks, for each route and once for the nodes, are few, no set is counted.
pub fn most_ways(
    nodes: &[u16],
    roots: &[u16],
    guards: &[u64],
    routes: usize,
    parts: &[u64],
    returners: &[u64; 16],
    stored: Counts,
    blocks: usize,
) -> usize
    requires routes_most { routes ≤ 1024 }
    requires nodes_most { stored.nodes ≤ 1024 }
    requires edges_most { stored.edges ≤ 512 }
    requires ends_most { stored.ends ≤ 128 }
    requires blocks_most { blocks ≤ 1024 }
    requires guards_fit { 16 * routes ≤ length guards.now }
    requires parts_fit { 16 * stored.nodes ≤ length parts.now }
    requires roots_in { (r : ℕ) → r < routes → get_or roots.now r 0 < stored.nodes }
    requires roots_fit { routes ≤ length roots.now }
    requires nodes_fit { 6 * stored.nodes ≤ length nodes.now }
    requires ways_within { sum (ways_of nodes.now) stored.nodes ≤ stored.edges + stored.ends }
    ensures { guarded_ways nodes.now roots.now guards.now blocks routes + returned_ways nodes.now (returns_in parts.now returners.now) blocks stored.nodes ≤ result }
{
    let rough = (routes + 1) * (stored.edges + stored.ends) * blocks;
    if rough <= HOP_MOST {
        return rough;
    }
    most_guarded(nodes, roots, guards, routes, blocks)
        + most_returned(nodes, parts, returners, stored.nodes, blocks)
}

// Those of the routes, which name their nodes.
fn most_guarded(nodes: &[u16], roots: &[u16], guards: &[u64], routes: usize, blocks: usize) -> usize
    requires routes_most { routes ≤ 1024 }
    requires blocks_most { blocks ≤ 1024 }
    requires guards_fit { 16 * routes ≤ length guards.now }
    requires roots_in { (r : ℕ) → r < routes → 6 * get_or roots.now r 0 + 6 ≤ length nodes.now }
    requires roots_fit { routes ≤ length roots.now }
    ensures bounds { guarded_ways nodes.now roots.now guards.now blocks routes ≤ result }
    ensures small { result ≤ 134217728 * routes }
{
    let mut most = 0;
    for r in 0..routes {
        most += ways_out(nodes, number_in(roots, r), members_of(guards, r, blocks));
    }
    most
}

// Those of the n nodes. One function over what both read would be longer than two loops of a line.
fn most_returned(
    nodes: &[u16],
    parts: &[u64],
    returners: &[u64; 16],
    n: usize,
    blocks: usize,
) -> usize
    requires nodes_most { n ≤ 1024 }
    requires blocks_most { blocks ≤ 1024 }
    requires parts_fit { 16 * n ≤ length parts.now }
    requires nodes_fit { 6 * n ≤ length nodes.now }
    ensures bounds { returned_ways nodes.now (returns_in parts.now returners.now) blocks n ≤ result }
    ensures small { result ≤ 134217728 * n }
{
    let mut most = 0;
    for i in 0..n {
        most += ways_out(nodes, i, members_in(parts, i, returners, blocks));
    }
    most
}

// The ways of node i out of so many blocks.
fn ways_out(nodes: &[u16], i: usize, blocks: usize) -> usize
    requires node { 6 * i + 6 ≤ length nodes.now }
    requires blocks_most { blocks ≤ 1024 }
    ensures ways { result ≡ ways_of nodes.now i * blocks }
    ensures small { result ≤ 134217728 }
{
    let x = node_in(nodes, i);
    (x.edges + x.ends) * blocks
}
