// The route edges of an addition, in the order in which routes first want them. Each pair is that of one hop, whose flag
// says whether it was wanted before.
mod find;
mod flags;
mod wanter;

ghost use Rattle.std.specs.Prelude.{◌≡◌, true, List, [], ◌∷◌, map, ℕ, ◌+◌, ◌-◌, ◌*◌, ◌≤◌, ◌<◌, length, get_or};
ghost use Rattle.image.specs.Image.{RouteImage, routes_in};
ghost use Rattle.graph.specs.Graph.{block};
ghost use Rattle.graph.specs.Lent.{held_of};
ghost use Rattle.graph.specs.BlockSet.{member};
ghost use Rattle.graph.specs.Adding.{Added};
ghost use Rattle.unwind.specs.Nodes.{branch_in, record_in};
ghost use Rattle.addition.specs.Ways.{hops_of, route_edge, route_edges};
ghost use Rattle.unwind.specs.Gather.{edge_exits, end_number, end_exits, NodeThere};
ghost use Rattle.unwind.specs.Routed.{TriesIn};
ghost use Rattle.unwind.specs.Placed.{set_at, returns_in};
ghost use Rattle.unwind.specs.HopWords.{hops_in};
ghost use Rattle.unwind.specs.Members.{BlockSets};
ghost use Rattle.unwind.specs.Wanted.{way_of, record_ways, lent_ways, RunsFit};
ghost use Rattle.unwind.specs.Flags.{leap_to, way_to, HopsRise, HopStands, HopsJoin, SomeStand, EdgesWanted, AllWanted, place_of, set_ways};
ghost use Rattle.unwind.specs.Wanters.{wanter_set, wanter_ways, WanterThere};

use crate::blocks::{first_of, last_of};
use crate::emit::entries::LEAVE;
use crate::emit::gather::end_number;
use crate::hops::Hops;
use crate::part::EXCEPTION_UNWIND;
use crate::slots::set_at;
use crate::tries::store::{Counts, branch_in, node_in, number_in};
use crate::wants::find::find_hop;
use crate::wants::flags::{Flags, likely_hop, mark_wanted};
use crate::wants::wanter::{Wanter, is_idle, next_block, wanter_of};
use graph::blockset::rank_in;
use graph::record::Edge;
use graph::store::Graph;
use graph::store::edges::add_edge;
use image::section::RouteLayout;

const ROUTE: u64 = 10;

// Adds the route edges to the graph that has the copies, told the hops of the same ways. Before, there were `blocks` blocks.
pub fn add_route_edges(
    g: &mut Graph,
    h: &Hops,
    s: &[u8],
    y: RouteLayout,
    nodes: &[u16],
    edges: &[u16],
    ends: &[u16],
    heads: &[u16],
    landings: &[u16],
    roots: &[u16],
    guards: &[u64],
    bases: &[u16],
    parts: &[u64],
    returners: &[u64; 16],
    stored: Counts,
    blocks: usize,
)
    requires { HopsJoin h.now (held_of g.old).graph × (16 * stored.nodes ≤ length parts.now) × ((i : ℕ) → i < stored.nodes → get_or bases.now i 0 ≤ 1024) × (hops_in (routes_in s.now y) h.now ≡ hops_of (lent_ways (routes_in s.now y) nodes.now edges.now ends.now heads.now landings.now roots.now guards.now bases.now parts.now (returns_in parts.now returners.now) (length (routes_in s.now y).routes) stored.nodes)) × TriesIn (routes_in s.now y) nodes.now edges.now ends.now roots.now stored × (stored.nodes ≤ length heads.now) × (stored.ends ≤ length landings.now) × (stored.nodes ≤ length bases.now) × BlockSets guards.now (returns_in parts.now returners.now) blocks (length (routes_in s.now y).routes) stored.nodes × (blocks ≤ 1024) }
    ensures { Added g.old g.new (route_edges (held_of g.old).graph [] (lent_ways (routes_in s.now y) nodes.now edges.now ends.now heads.now landings.now roots.now guards.now bases.now parts.now (returns_in parts.now returners.now) (length (routes_in s.now y).routes) stored.nodes)) [] [] }
{
    let mut done = [0u64; 33];
    let routes = y.routes.count as usize;
    let all = routes + stored.nodes;
    for k in 0..all {
        want_by(
            g, h, nodes, edges, heads, landings, roots, guards, routes, bases, parts, returners, k,
            blocks, &mut done,
        );
    }
}

// What wanter k wants.
fn want_by(
    g: &mut Graph,
    h: &Hops,
    nodes: &[u16],
    edges: &[u16],
    heads: &[u16],
    landings: &[u16],
    roots: &[u16],
    guards: &[u64],
    routes: usize,
    bases: &[u16],
    parts: &[u64],
    returners: &[u64; 16],
    k: usize,
    blocks: usize,
    done: &mut Flags,
)
    requires { SomeStand h.now (λ m ends. wanter_ways m nodes.now edges.now ends heads.now landings.now roots.now guards.now bases.now parts.now (returns_in parts.now returners.now) routes k) × HopsJoin h.now (held_of g.old).graph × WanterThere nodes.now edges.now heads.now landings.now roots.now guards.now bases.now parts.now (returns_in parts.now returners.now) routes blocks k × (blocks ≤ 1024) }
    ensures { AllWanted h.now g.old done.old (λ m ends. wanter_ways m nodes.now edges.now ends heads.now landings.now roots.now guards.now bases.now parts.now (returns_in parts.now returners.now) routes k) g.new done.new }
{
    if is_idle(nodes, landings, routes, k) {
        return;
    }
    let x = wanter_of(nodes, roots, bases, routes, k);
    want_set(
        g, h, nodes, edges, heads, landings, x, guards, routes, parts, returners, k, blocks, done,
    );
}

// What wanter k, which is x, wants out of its blocks.
fn want_set(
    g: &mut Graph,
    h: &Hops,
    nodes: &[u16],
    edges: &[u16],
    heads: &[u16],
    landings: &[u16],
    x: Wanter,
    guards: &[u64],
    routes: usize,
    parts: &[u64],
    returners: &[u64; 16],
    k: usize,
    blocks: usize,
    done: &mut Flags,
)
    requires { SomeStand h.now (λ m ends. set_ways m nodes.now edges.now ends heads.now landings.now x.node x.route x.base (set_at parts.now x.node) (wanter_set guards.now (returns_in parts.now returners.now) routes k)) × HopsJoin h.now (held_of g.old).graph × (x.base ≤ 1024) × NodeThere nodes.now edges.now heads.now landings.now x.node × ((b : ℕ) → member (wanter_set guards.now (returns_in parts.now returners.now) routes k) b ≡ true → b < blocks) × (blocks ≤ 1024) × (16 * routes ≤ length guards.now) × (16 * (k - routes) + 16 ≤ length parts.now) × (16 * x.node + 16 ≤ length parts.now) }
    ensures { AllWanted h.now g.old done.old (λ m ends. set_ways m nodes.now edges.now ends heads.now landings.now x.node x.route x.base (set_at parts.now x.node) (wanter_set guards.now (returns_in parts.now returners.now) routes k)) g.new done.new }
{
    let mut from = 0;
    while let Some(o) = next_block(guards, parts, returners, routes, k, from, blocks) {
        from = o + 1;
        let b = place_of(x, parts, o);
        want_from(
            g, h, nodes, edges, heads, landings, x.node, x.route, b, done,
        );
    }
}

// Where a node has block o.
fn place_of(x: Wanter, parts: &[u64], o: usize) -> usize
    requires { (x.base ≤ 1024) × (o < 1024) × (16 * x.node + 16 ≤ length parts.now) }
    ensures { (result ≡ place_of x.base (set_at parts.now x.node) o) × (result < 65536) }
{
    if x.base == 0 {
        return o;
    }
    let part = set_at(parts, x.node);
    x.base + rank_in(&part, o)
}

// What node i wants for route r out of block b.
fn want_from(
    g: &mut Graph,
    h: &Hops,
    nodes: &[u16],
    edges: &[u16],
    heads: &[u16],
    landings: &[u16],
    i: usize,
    r: usize,
    b: usize,
    done: &mut Flags,
)
    requires { SomeStand h.now (λ m ends. record_ways m nodes.now edges.now ends heads.now landings.now r b (record_in nodes.now i)) × HopsJoin h.now (held_of g.old).graph × (b < 65536) × NodeThere nodes.now edges.now heads.now landings.now i }
    ensures { AllWanted h.now g.old done.old (λ m ends. record_ways m nodes.now edges.now ends heads.now landings.now r b (record_in nodes.now i)) g.new done.new }
{
    let node = node_in(nodes, i);
    want_edges(g, h, edges, heads, node.first_edge, node.edges, r, b, done);
    want_ends(g, h, landings, node.first_end, node.ends, r, b, done);
}

// By its `count` edges from `first` on.
fn want_edges(
    g: &mut Graph,
    h: &Hops,
    edges: &[u16],
    heads: &[u16],
    first: usize,
    count: usize,
    r: usize,
    b: usize,
    done: &mut Flags,
)
    requires { HopsRise h.now × ((j : ℕ) → j < count → HopStands h.now (leap_to b (get_or heads.now (branch_in edges.now (first + j)).what 0))) × HopsJoin h.now (held_of g.old).graph × (3 * (first + count) ≤ length edges.now) × ((k : ℕ) → k < count → (branch_in edges.now (first + k)).what < length heads.now) }
    ensures { (m : RouteImage) → EdgesWanted h.now g.old done.old (map (way_of r) (edge_exits m b edges.now heads.now first count)) g.new done.new }
{
    for k in 0..count {
        let e = branch_in(edges, first + k);
        let t = number_in(heads, e.what);
        want(g, h, r, b, t, done);
    }
}

// By its `count` ends from `first` on.
fn want_ends(
    g: &mut Graph,
    h: &Hops,
    landings: &[u16],
    first: usize,
    count: usize,
    r: usize,
    b: usize,
    done: &mut Flags,
)
    requires { HopsRise h.now × ((j : ℕ) → j < count → HopStands h.now (leap_to b (end_number b landings.now (first + j)))) × HopsJoin h.now (held_of g.old).graph × (b < 65536) × (first + count ≤ length landings.now) }
    ensures { AllWanted h.now g.old done.old (λ m ends. map (way_of r) (end_exits m b ends landings.now first count)) g.new done.new }
{
    for k in 0..count {
        let t = end_number(landings, first + k, b);
        want(g, h, r, b, t, done);
    }
}

// Route r wants an edge from block b to the end of number t: it is added unless it was wanted before, and none leaves.
fn want(g: &mut Graph, h: &Hops, r: usize, b: usize, t: usize, done: &mut Flags)
    requires { HopsRise h.now × HopStands h.now (leap_to b t) × HopsJoin h.now (held_of g.old).graph }
    ensures { (calls : List ℕ) → EdgesWanted h.now g.old done.old (way_to r b t calls ∷ []) g.new done.new }
{
    if t == LEAVE {
        return;
    }
    let near = likely_hop(done);
    let k = find_hop(h, near, b, t);
    if mark_wanted(done, k) {
        return;
    }
    let e = route_edge(g, r, b, t);
    add_edge(g, e);
}

// The edge from block b to block t, for route r.
fn route_edge(g: &Graph, r: usize, b: usize, t: usize) -> Edge
    requires { RunsFit (held_of g.now).graph × (b < length (held_of g.now).graph.blocks) × (t < length (held_of g.now).graph.blocks) × ((block (held_of g.now).graph t).first < length (held_of g.now).graph.table) }
    ensures { result ≡ route_edge (held_of g.now).graph r b t }
{
    Edge {
        source: b as u64,
        target: t as u64,
        kind: EXCEPTION_UNWIND,
        role: ROUTE,
        number: r as u64,
        key: 0,
        source_address: last_of(g, b).address,
        target_address: first_of(g, t).address,
    }
}
