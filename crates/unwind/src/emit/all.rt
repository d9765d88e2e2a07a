// All hops of an addition, into a sink: stored, or counted before any of it is stored.
ghost use Rattle.std.specs.Prelude.{[], ◌≡◌, ℕ, ◌*◌, ◌≤◌, length};
ghost use Rattle.image.specs.Image.{routes_in};
ghost use Rattle.image.specs.Deal.{routes_of};
ghost use Rattle.image.specs.There.{RoutesThere};
ghost use Rattle.graph.specs.Lent.{held_of};
ghost use Rattle.addition.specs.Ways.{ways, hops_of};
ghost use Rattle.unwind.specs.Routed.{TriesIn};
ghost use Rattle.unwind.specs.Placed.{returns_in};
ghost use Rattle.unwind.specs.Lent.{Leads, Sides, PartsIn, Roomy};
ghost use Rattle.unwind.specs.Sizes.{HopsSize};
ghost use Rattle.unwind.specs.Copies.{BasesFew, Bounded};
ghost use Rattle.unwind.specs.HopWords.{HopsFit, HopsLaid};

use crate::emit::cloned::emit_nodes;
use crate::emit::count::Sizes;
use crate::emit::sink::Sink;
use crate::emit::standing::emit_blocks;
use crate::hops::{Hops, empty_hops};
use crate::tries::store::Counts;
use graph::store::Graph;
use graph::store::blocks::block_count;
use image::section::RouteLayout;

// Of the graph before, and routes whose nodes are placed. What the words held is gone.
pub fn add_hops(
    g: &Graph,
    h: &mut Hops,
    s: &[u8],
    y: RouteLayout,
    nodes: &[u16],
    edges: &[u16],
    ends: &[u16],
    heads: &[u16],
    landings: &[u16],
    roots: &[u16],
    guards: &[u64],
    bases: &[u16],
    parts: &[u64],
    returners: &[u64; 16],
    stored: Counts,
    originals: &mut [u16],
    exits: &mut [u16],
)
    requires { TriesIn (routes_in s.now y) nodes.now edges.now ends.now roots.now stored × Leads (held_of g.now).graph (routes_in s.now y) ends.now heads.now landings.now stored × Sides (held_of g.now).graph (routes_in s.now y) guards.now bases.now (returns_in parts.now returners.now) stored × PartsIn (held_of g.now).graph (routes_in s.now y) parts.now stored × Bounded (held_of g.now).graph (routes_of (routes_in s.now y)) × Roomy edges.now ends.now exits.old × HopsFit (hops_of (ways (held_of g.now).graph (routes_of (routes_in s.now y)))) × (16 * stored.nodes ≤ length parts.now) × (16 * length (routes_in s.now y).routes ≤ length guards.now) × RoutesThere s.now y × (stored.nodes ≤ length heads.now) × (stored.ends ≤ length landings.now) × (stored.nodes ≤ length bases.now) × (stored.nodes ≤ length originals.old) }
    ensures { HopsLaid (routes_in s.now y) h.old h.new (hops_of (ways (held_of g.now).graph (routes_of (routes_in s.now y)))) }
{
    empty_hops(h);
    emit_hops(
        h, g, s, y, nodes, edges, ends, heads, landings, roots, guards, bases, parts, returners,
        stored, originals, exits,
    );
}

// The sizes of the same, before any of it is stored.
pub fn count_hops(
    g: &Graph,
    s: &[u8],
    y: RouteLayout,
    nodes: &[u16],
    edges: &[u16],
    ends: &[u16],
    heads: &[u16],
    landings: &[u16],
    roots: &[u16],
    guards: &[u64],
    bases: &[u16],
    parts: &[u64],
    returners: &[u64; 16],
    stored: Counts,
    originals: &mut [u16],
    exits: &mut [u16],
) -> Sizes
    requires { TriesIn (routes_in s.now y) nodes.now edges.now ends.now roots.now stored × Leads (held_of g.now).graph (routes_in s.now y) ends.now heads.now landings.now stored × Sides (held_of g.now).graph (routes_in s.now y) guards.now bases.now (returns_in parts.now returners.now) stored × PartsIn (held_of g.now).graph (routes_in s.now y) parts.now stored × BasesFew bases.now stored.nodes × Bounded (held_of g.now).graph (routes_of (routes_in s.now y)) × Roomy edges.now ends.now exits.old × (16 * stored.nodes ≤ length parts.now) × (16 * length (routes_in s.now y).routes ≤ length guards.now) × RoutesThere s.now y × (stored.nodes ≤ length heads.now) × (stored.ends ≤ length landings.now) × (stored.nodes ≤ length bases.now) × (stored.nodes ≤ length originals.old) }
    ensures { HopsSize (hops_of (ways (held_of g.now).graph (routes_of (routes_in s.now y)))) result }
{
    let mut sizes = Sizes {
        hops: 0,
        lists: 0,
        blocks: 0,
    };
    emit_hops(
        &mut sizes, g, s, y, nodes, edges, ends, heads, landings, roots, guards, bases, parts,
        returners, stored, originals, exits,
    );
    sizes
}

// Into a sink that has none: those out of the blocks that stood, and those out of the copies.
fn emit_hops<V: Sink>(
    sink: &mut V,
    g: &Graph,
    s: &[u8],
    y: RouteLayout,
    nodes: &[u16],
    edges: &[u16],
    ends: &[u16],
    heads: &[u16],
    landings: &[u16],
    roots: &[u16],
    guards: &[u64],
    bases: &[u16],
    parts: &[u64],
    returners: &[u64; 16],
    stored: Counts,
    originals: &mut [u16],
    exits: &mut [u16],
)
    requires tries { TriesIn (routes_in s.now y) nodes.now edges.now ends.now roots.now stored }
    requires leads { Leads (held_of g.now).graph (routes_in s.now y) ends.now heads.now landings.now stored }
    requires sides { Sides (held_of g.now).graph (routes_in s.now y) guards.now bases.now (returns_in parts.now returners.now) stored }
    requires parts { PartsIn (held_of g.now).graph (routes_in s.now y) parts.now stored }
    requires bounded { Bounded (held_of g.now).graph (routes_of (routes_in s.now y)) }
    requires roomy { Roomy edges.now ends.now exits.old }
    requires parts_fit { 16 * stored.nodes ≤ length parts.now }
    requires guards_fit { 16 * length (routes_in s.now y).routes ≤ length guards.now }
    requires there { RoutesThere s.now y }
    requires heads_fit { stored.nodes ≤ length heads.now }
    requires landings_fit { stored.ends ≤ length landings.now }
    requires bases_fit { stored.nodes ≤ length bases.now }
    requires originals_fit { stored.nodes ≤ length originals.old }
    requires start { V.holds (routes_in s.now y) 0 [] sink.old sink.old }
    requires room { V.fits (hops_of (ways (held_of g.now).graph (routes_of (routes_in s.now y)))) }
    ensures { (d : ℕ) × V.holds (routes_in s.now y) d (hops_of (ways (held_of g.now).graph (routes_of (routes_in s.now y)))) sink.old sink.new }
{
    let blocks = block_count(g);
    emit_blocks(
        sink, s, y, nodes, edges, ends, heads, landings, roots, guards, bases, parts, returners,
        stored, blocks, originals, exits,
    );
    emit_nodes(
        sink,
        s,
        y,
        nodes,
        edges,
        ends,
        heads,
        landings,
        bases,
        parts,
        returners,
        stored.nodes,
        blocks,
        exits,
    );
}
