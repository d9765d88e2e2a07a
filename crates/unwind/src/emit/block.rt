// All ways out of a block that stood: of the routes that guard it, and of the nodes on the original blocks that return there.
ghost use Rattle.std.specs.Prelude.{ℕ, ◌+◌, ◌*◌, ◌/◌, ◌≤◌, ◌<◌, length, get_or};
ghost use Rattle.image.specs.Image.{routes_in};
ghost use Rattle.image.specs.There.{RoutesThere};
ghost use Rattle.graph.specs.Fold.{flat};
ghost use Rattle.unwind.specs.Nodes.{record_in, NodeFits, AllFit};
ghost use Rattle.unwind.specs.Gather.{in_set, NodeThere, AllThere, route_records, return_records, Pooled, Adds};
ghost use Rattle.unwind.specs.Routed.{TriesIn};
ghost use Rattle.unwind.specs.Placed.{returns_in};
ghost use Rattle.unwind.specs.Lent.{block_records, BlockHeld};
ghost use Rattle.unwind.specs.Members.{Joins, Originals};

use crate::emit::busy::has_block;
use crate::emit::gather::gather_node;
use crate::slots::in_set;
use crate::tries::store::{Counts, number_in};
use graph::blockset::has_in;
use image::section::RouteLayout;

// All of them, and how many there are. Of the word of b, `guarded` has the blocks that a route guards, and `originals` the
// nodes on the original blocks that return from one.
pub fn gather_block(
    s: &[u8],
    y: RouteLayout,
    nodes: &[u16],
    edges: &[u16],
    ends: &[u16],
    heads: &[u16],
    landings: &[u16],
    roots: &[u16],
    guards: &[u64],
    guarded: u64,
    bases: &[u16],
    parts: &[u64],
    returners: &[u64; 16],
    originals: &[u16],
    listed: usize,
    stored: Counts,
    b: usize,
    exits: &mut [u16],
) -> usize
    requires { TriesIn (routes_in s.now y) nodes.now edges.now ends.now roots.now stored × (b < 1024) × (2 * (length edges.now + length ends.now) ≤ length exits.old) × Originals bases.now (returns_in parts.now returners.now) originals.now stored.nodes (b / 64) listed × RoutesThere s.now y × (stored.nodes ≤ length heads.now) × (stored.ends ≤ length landings.now) × (stored.nodes ≤ length originals.now) × (16 * length (routes_in s.now y).routes ≤ length guards.now) × (16 * stored.nodes ≤ length parts.now) × Joins (λ r k. in_set guards.now r k) y.routes.count (b / 64) guarded }
    ensures { BlockHeld (routes_in s.now y) b (block_records (routes_in s.now y) b nodes.now edges.now ends.now heads.now landings.now roots.now guards.now bases.now (returns_in parts.now returners.now) stored) edges.now ends.now exits.old exits.new result }
{
    let count = y.routes.count as usize;
    let n = gather_routes(
        s, y, nodes, edges, ends, heads, landings, roots, guards, guarded, count, b, exits, 0,
    );
    gather_nodes(
        s, y, nodes, edges, ends, heads, landings, parts, returners, originals, listed, b, exits, n,
    )
}

// Those of the routes: none, if none of them guards b.
fn gather_routes(
    s: &[u8],
    y: RouteLayout,
    nodes: &[u16],
    edges: &[u16],
    ends: &[u16],
    heads: &[u16],
    landings: &[u16],
    roots: &[u16],
    guards: &[u64],
    guarded: u64,
    count: usize,
    b: usize,
    exits: &mut [u16],
    held: usize,
) -> usize
    requires { Pooled (routes_in s.now y) b edges.now ends.now heads.now landings.now exits.old held × (b < 1024) × (16 * count ≤ length guards.now) × AllFit nodes.now edges.now ends.now (λ r. get_or roots.now r 0) count × RoutesThere s.now y × AllThere nodes.now edges.now heads.now landings.now (λ r. get_or roots.now r 0) count × (count ≤ length roots.now) × Joins (λ r k. in_set guards.now r k) count (b / 64) guarded }
    ensures { Adds (routes_in s.now y) b edges.now ends.now heads.now landings.now exits.old held (flat (route_records (routes_in s.now y) b edges.now ends.now heads.now landings.now nodes.now roots.now guards.now) count) exits.new result }
{
    if !has_block(guarded, b) {
        return held;
    }
    let mut n = held;
    for r in 0..count {
        n = gather_route(
            s, y, nodes, edges, ends, heads, landings, roots, guards, r, b, exits, n,
        );
    }
    n
}

// Those of route r, if it guards b.
fn gather_route(
    s: &[u8],
    y: RouteLayout,
    nodes: &[u16],
    edges: &[u16],
    ends: &[u16],
    heads: &[u16],
    landings: &[u16],
    roots: &[u16],
    guards: &[u64],
    r: usize,
    b: usize,
    exits: &mut [u16],
    held: usize,
) -> usize
    requires { Pooled (routes_in s.now y) b edges.now ends.now heads.now landings.now exits.old held × (b < 1024) × (16 * r + 16 ≤ length guards.now) × NodeFits edges.now ends.now (record_in nodes.now (get_or roots.now r 0)) × RoutesThere s.now y × NodeThere nodes.now edges.now heads.now landings.now (get_or roots.now r 0) × (r < length roots.now) }
    ensures { Adds (routes_in s.now y) b edges.now ends.now heads.now landings.now exits.old held (route_records (routes_in s.now y) b edges.now ends.now heads.now landings.now nodes.now roots.now guards.now r) exits.new result }
{
    if in_set(guards, r, b) {
        let i = number_in(roots, r);
        return gather_node(s, y, nodes, edges, ends, heads, landings, i, b, exits, held);
    }
    held
}

// Those of the nodes that are listed: none, if b does not return.
fn gather_nodes(
    s: &[u8],
    y: RouteLayout,
    nodes: &[u16],
    edges: &[u16],
    ends: &[u16],
    heads: &[u16],
    landings: &[u16],
    parts: &[u64],
    returners: &[u64; 16],
    originals: &[u16],
    count: usize,
    b: usize,
    exits: &mut [u16],
    held: usize,
) -> usize
    requires { Pooled (routes_in s.now y) b edges.now ends.now heads.now landings.now exits.old held × (b < 1024) × AllFit nodes.now edges.now ends.now (λ k. get_or originals.now k 0) count × RoutesThere s.now y × AllThere nodes.now edges.now heads.now landings.now (λ k. get_or originals.now k 0) count × (count ≤ length originals.now) × ((k : ℕ) → k < count → 16 * get_or originals.now k 0 + 16 ≤ length parts.now) }
    ensures { Adds (routes_in s.now y) b edges.now ends.now heads.now landings.now exits.old held (flat (λ k. return_records (routes_in s.now y) b edges.now ends.now heads.now landings.now nodes.now (returns_in parts.now returners.now) (get_or originals.now k 0)) count) exits.new result }
{
    if !has_in(returners, b) {
        return held;
    }
    let mut n = held;
    for k in 0..count {
        let i = number_in(originals, k);
        n = gather_returned(
            s, y, nodes, edges, ends, heads, landings, parts, i, b, exits, n,
        );
    }
    n
}

// Those of node i, if its part has b.
fn gather_returned(
    s: &[u8],
    y: RouteLayout,
    nodes: &[u16],
    edges: &[u16],
    ends: &[u16],
    heads: &[u16],
    landings: &[u16],
    parts: &[u64],
    i: usize,
    b: usize,
    exits: &mut [u16],
    held: usize,
) -> usize
    requires { Pooled (routes_in s.now y) b edges.now ends.now heads.now landings.now exits.old held × (b < 1024) × (16 * i + 16 ≤ length parts.now) × NodeFits edges.now ends.now (record_in nodes.now i) × RoutesThere s.now y × NodeThere nodes.now edges.now heads.now landings.now i }
    ensures { Adds (routes_in s.now y) b edges.now ends.now heads.now landings.now exits.old held (return_records (routes_in s.now y) b edges.now ends.now heads.now landings.now nodes.now parts.now i) exits.new result }
{
    if in_set(parts, i, b) {
        return gather_node(s, y, nodes, edges, ends, heads, landings, i, b, exits, held);
    }
    held
}
