// The hops out of copies of blocks, node by node.
ghost use Rattle.std.specs.Prelude.{◌≡◌, ◌++◌, List, ◌+◌, ◌≤◌, ◌<◌, length};
ghost use Rattle.image.specs.Image.{routes_in};
ghost use Rattle.image.specs.There.{RoutesThere};
ghost use Rattle.graph.specs.Fold.{flat};
ghost use Rattle.addition.specs.Ways.{Hop};
ghost use Rattle.unwind.specs.Nodes.{record_in, NodeFits, AllFit};
ghost use Rattle.unwind.specs.Gather.{NodeThere, AllThere};
ghost use Rattle.unwind.specs.Placed.{returns_in};
ghost use Rattle.unwind.specs.Lent.{Roomy};
ghost use Rattle.unwind.specs.Copies.{copy_number, hops_from, copy_hops, node_hops};
ghost use Rattle.unwind.specs.HopWords.{ReturnsWithin};
ghost use Rattle.unwind.specs.AllNodes.{behind_nodes, NodeRises, NodesRise};
ghost use Rattle.unwind.specs.Members.{NodeSets, NodesSets};

use crate::emit::gather::gather_node;
use crate::emit::sink::Sink;
use crate::slots::{common_at, set_at};
use crate::tries::store::number_in;
use graph::blockset::{next_in, rank_in};
use image::section::RouteLayout;

// Those of the copies of all nodes, behind those of the first `blocks` blocks.
pub fn emit_nodes<V: Sink>(
    sink: &mut V,
    s: &[u8],
    y: RouteLayout,
    nodes: &[u16],
    edges: &[u16],
    ends: &[u16],
    heads: &[u16],
    landings: &[u16],
    bases: &[u16],
    parts: &[u64],
    returners: &[u64; 16],
    count: usize,
    blocks: usize,
    exits: &mut [u16],
)
    requires fit { AllFit nodes.now edges.now ends.now (λ i. i) count }
    requires rise { NodesRise bases.now parts.now (returns_in parts.now returners.now) blocks count }
    requires few { blocks ≤ 1024 }
    requires roomy { Roomy edges.now ends.now exits.old }
    requires sets { NodesSets parts.now (returns_in parts.now returners.now) blocks count }
    requires there { RoutesThere s.now y }
    requires nodes_there { AllThere nodes.now edges.now heads.now landings.now (λ i. i) count }
    requires bases_fit { count ≤ length bases.now }
    requires room { (hs : List Hop) × (old : V) × V.holds (routes_in s.now y) blocks hs old sink.old × (more : List Hop) × V.fits (hs ++ flat (node_hops (routes_in s.now y) nodes.now edges.now ends.now heads.now landings.now bases.now parts.now (returns_in parts.now returners.now) blocks) count ++ more) }
    ensures { (hs : List Hop) (old : V) → V.holds (routes_in s.now y) blocks hs old sink.old → V.holds (routes_in s.now y) (behind_nodes bases.now parts.now blocks count) (hs ++ flat (node_hops (routes_in s.now y) nodes.now edges.now ends.now heads.now landings.now bases.now parts.now (returns_in parts.now returners.now) blocks) count) old sink.new }
{
    for i in 0..count {
        emit_node(
            sink, s, y, nodes, edges, ends, heads, landings, bases, parts, returners, i, blocks,
            exits,
        );
    }
}

// Those of node i, if it has copies.
fn emit_node<V: Sink>(
    sink: &mut V,
    s: &[u8],
    y: RouteLayout,
    nodes: &[u16],
    edges: &[u16],
    ends: &[u16],
    heads: &[u16],
    landings: &[u16],
    bases: &[u16],
    parts: &[u64],
    returners: &[u64; 16],
    i: usize,
    blocks: usize,
    exits: &mut [u16],
)
    requires fits { NodeFits edges.now ends.now (record_in nodes.now i) }
    requires rises { NodeRises bases.now parts.now (returns_in parts.now returners.now) blocks i }
    requires few { blocks ≤ 1024 }
    requires roomy { Roomy edges.now ends.now exits.old }
    requires sets { NodeSets parts.now (returns_in parts.now returners.now) blocks i }
    requires there { RoutesThere s.now y }
    requires node { NodeThere nodes.now edges.now heads.now landings.now i }
    requires base { i < length bases.now }
    requires room { (hs : List Hop) × (old : V) × V.holds (routes_in s.now y) (behind_nodes bases.now parts.now blocks i) hs old sink.old × (more : List Hop) × V.fits (hs ++ node_hops (routes_in s.now y) nodes.now edges.now ends.now heads.now landings.now bases.now parts.now (returns_in parts.now returners.now) blocks i ++ more) }
    ensures holds { (hs : List Hop) (old : V) → V.holds (routes_in s.now y) (behind_nodes bases.now parts.now blocks i) hs old sink.old → V.holds (routes_in s.now y) (behind_nodes bases.now parts.now blocks (i + 1)) (hs ++ node_hops (routes_in s.now y) nodes.now edges.now ends.now heads.now landings.now bases.now parts.now (returns_in parts.now returners.now) blocks i) old sink.new }
    ensures long { length exits.new ≡ length exits.old }
{
    let base = number_in(bases, i);
    if base != 0 {
        emit_copies(
            sink, s, y, nodes, edges, ends, heads, landings, parts, returners, i, base, blocks,
            exits,
        );
    }
}

// Those of node i, whose first copy is block `base`: of each block from which it returns. All are among the first `blocks`.
fn emit_copies<V: Sink>(
    sink: &mut V,
    s: &[u8],
    y: RouteLayout,
    nodes: &[u16],
    edges: &[u16],
    ends: &[u16],
    heads: &[u16],
    landings: &[u16],
    parts: &[u64],
    returners: &[u64; 16],
    i: usize,
    base: usize,
    blocks: usize,
    exits: &mut [u16],
)
    requires fits { NodeFits edges.now ends.now (record_in nodes.now i) }
    requires low { base ≤ 1024 }
    requires few { blocks ≤ 1024 }
    requires roomy { Roomy edges.now ends.now exits.old }
    requires within { ReturnsWithin parts.now (returns_in parts.now returners.now) i }
    requires sets { NodeSets parts.now (returns_in parts.now returners.now) blocks i }
    requires there { RoutesThere s.now y }
    requires node { NodeThere nodes.now edges.now heads.now landings.now i }
    requires room { (hs : List Hop) × (old : V) × V.holds (routes_in s.now y) base hs old sink.old × (more : List Hop) × V.fits (hs ++ flat (copy_hops (routes_in s.now y) nodes.now edges.now ends.now heads.now landings.now parts.now (returns_in parts.now returners.now) i base) blocks ++ more) }
    ensures holds { (hs : List Hop) (old : V) → V.holds (routes_in s.now y) base hs old sink.old → V.holds (routes_in s.now y) (copy_number parts.now i base blocks) (hs ++ flat (copy_hops (routes_in s.now y) nodes.now edges.now ends.now heads.now landings.now parts.now (returns_in parts.now returners.now) i base) blocks) old sink.new }
    ensures long { length exits.new ≡ length exits.old }
{
    let part = set_at(parts, i);
    let set = common_at(parts, i, returners);
    let mut from = 0;
    while let Some(o) = next_in(&set, from, blocks) {
        from = o + 1;
        let b = base + rank_in(&part, o);
        emit_copy(sink, s, y, nodes, edges, ends, heads, landings, i, b, exits);
    }
}

// Those of node i out of b.
fn emit_copy<V: Sink>(
    sink: &mut V,
    s: &[u8],
    y: RouteLayout,
    nodes: &[u16],
    edges: &[u16],
    ends: &[u16],
    heads: &[u16],
    landings: &[u16],
    i: usize,
    b: usize,
    exits: &mut [u16],
)
    requires fits { NodeFits edges.now ends.now (record_in nodes.now i) }
    requires block { b < 65536 }
    requires roomy { Roomy edges.now ends.now exits.old }
    requires there { RoutesThere s.now y }
    requires node { NodeThere nodes.now edges.now heads.now landings.now i }
    requires room { (hs : List Hop) × (old : V) × V.holds (routes_in s.now y) b hs old sink.old × (more : List Hop) × V.fits (hs ++ hops_from (routes_in s.now y) nodes.now edges.now ends.now heads.now landings.now i b ++ more) }
    ensures holds { (hs : List Hop) (old : V) → V.holds (routes_in s.now y) b hs old sink.old → V.holds (routes_in s.now y) (b + 1) (hs ++ hops_from (routes_in s.now y) nodes.now edges.now ends.now heads.now landings.now i b) old sink.new }
    ensures long { length exits.new ≡ length exits.old }
{
    let n = gather_node(s, y, nodes, edges, ends, heads, landings, i, b, exits, 0);
    sink.take(b, exits, n);
}
