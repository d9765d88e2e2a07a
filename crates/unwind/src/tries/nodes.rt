// Nodes by what they are: a node that stands already is not stored again.
ghost use Rattle.std.specs.Prelude.{◌≡◌, ◌&&◌, map, ◌+◌, ◌*◌, ◌≤◌, eqb, length};
ghost use Rattle.image.specs.Image.{routes_in};
ghost use Rattle.image.specs.Accepted.{AcceptedRoutes};
ghost use Rattle.image.specs.There.{RoutesThere};
ghost use Rattle.addition.specs.Order.{same};
ghost use Rattle.addition.specs.Trie.{same_funclet, same_node, place_of};
ghost use Rattle.unwind.specs.Nodes.{record_in, branches, funclet_in, value_of, node_in, nodes_in, Stored, NodeFits, AllFit};
ghost use Rattle.unwind.specs.Interning.{ordered, meaning};
ghost use Rattle.unwind.specs.Kept.{place_in, Behind, Kept};
ghost use Rattle.unwind.specs.Lower.{Lower, BehindChildren};
ghost use Rattle.unwind.specs.Seen.{mark_of, Seen};

use crate::routes::step_of;
use crate::tries::compare::{Kind, compare_branches};
use crate::tries::store::{Counts, NodeRecord, branch_in, node_in, number_in, put_node};
use graph::blockset::{has_in, put_in};
use image::section::RouteLayout;

// A node's place, and how many nodes, edges and ends are stored then.
#[derive(Clone, Copy)]
pub struct Interned {
    pub place: usize,
    pub counts: Counts,
}

// Stores a node whose edges and ends are laid behind those that are stored, unless an equal one stands; `seen` has the marks
// of the funclets of all that stand.
pub fn keep_node(
    s: &[u8],
    y: RouteLayout,
    nodes: &mut [u16],
    edges: &[u16],
    ends: &[u16],
    seen: &mut [u64; 16],
    counts: Counts,
    x: NodeRecord,
) -> Interned
    requires accepted { AcceptedRoutes (routes_in s.now y) }
    requires stored { Stored nodes.old edges.now ends.now counts }
    requires behind { Behind nodes.old edges.now ends.now counts x }
    requires lower { Lower (nodes_in (routes_in s.now y) nodes.old edges.now ends.now counts.nodes) }
    requires seen { Seen (routes_in s.now y) nodes.old counts.nodes seen.old }
    requires there { RoutesThere s.now y }
    ensures kept { Kept (routes_in s.now y) nodes.old edges.now ends.now counts x nodes.new result }
    ensures seen { Seen (routes_in s.now y) nodes.new result.counts.nodes seen.new }
{
    let n = counts.nodes;
    if let Some(place) = find_node(s, y, nodes, edges, ends, seen, n, x) {
        return Interned { place, counts };
    }
    put_node(nodes, n, x);
    put_in(seen, mark_of(funclet_value(s, y, x.funclet)));
    Interned {
        place: n,
        counts: Counts {
            nodes: n + 1,
            edges: counts.edges + x.edges,
            ends: counts.ends + x.ends,
        },
    }
}

// The first of the n nodes that equals x. It stands behind the children of x, and the mark of its funclet was seen.
fn find_node(
    s: &[u8],
    y: RouteLayout,
    nodes: &[u16],
    edges: &[u16],
    ends: &[u16],
    seen: &[u64; 16],
    n: usize,
    x: NodeRecord,
) -> Option<usize>
    requires accepted { AcceptedRoutes (routes_in s.now y) }
    requires nodes_fit { 6 * n ≤ length nodes.now }
    requires lower { Lower (nodes_in (routes_in s.now y) nodes.now edges.now ends.now n) }
    requires seen { Seen (routes_in s.now y) nodes.now n seen.now }
    requires there { RoutesThere s.now y }
    requires fits { NodeFits edges.now ends.now x }
    requires all_fit { AllFit nodes.now edges.now ends.now (λ i. i) n }
    ensures { place_in result ≡ place_of (node_in (routes_in s.now y) edges.now ends.now x) (nodes_in (routes_in s.now y) nodes.now edges.now ends.now n) }
{
    let low = behind_children(edges, x.first_edge, x.edges);
    if n <= low {
        return None;
    }
    let value = funclet_value(s, y, x.funclet);
    if !has_in(seen, mark_of(value)) {
        return None;
    }
    for i in low..n {
        if stands_at(s, y, nodes, edges, ends, i, x, value) {
            return Some(i);
        }
    }
    None
}

// Behind the greatest node that the n edges from `first` on lead to.
fn behind_children(edges: &[u16], first: usize, n: usize) -> usize
    requires { 3 * (first + n) ≤ length edges.now }
    ensures { BehindChildren edges.now first n result }
{
    let mut low = 0;
    for k in 0..n {
        let child = branch_in(edges, first + k).what;
        if low <= child {
            low = child + 1;
        }
    }
    low
}

// Whether node i equals x, whose funclet has this value. Most that do not are told by their counts, or by their funclet.
fn stands_at(
    s: &[u8],
    y: RouteLayout,
    nodes: &[u16],
    edges: &[u16],
    ends: &[u16],
    i: usize,
    x: NodeRecord,
    value: u64,
) -> bool
    requires accepted { AcceptedRoutes (routes_in s.now y) }
    requires node { 6 * i + 6 ≤ length nodes.now }
    requires named { value ≡ value_of (funclet_in (routes_in s.now y) x.funclet) }
    requires there { RoutesThere s.now y }
    requires fits { NodeFits edges.now ends.now x }
    requires node_fits { NodeFits edges.now ends.now (record_in nodes.now i) }
    ensures { result ≡ same_node (node_in (routes_in s.now y) edges.now ends.now x) (node_in (routes_in s.now y) edges.now ends.now (record_in nodes.now i)) }
{
    if !counts_match(nodes, i, x.edges, x.ends) {
        return false;
    }
    funclet_value(s, y, number_in(nodes, 6 * i)) == value
        && same_node(s, y, edges, ends, x, node_in(nodes, i))
}

// Whether node i has so many edges and ends.
fn counts_match(nodes: &[u16], i: usize, edges: usize, ends: usize) -> bool
    requires { 6 * i + 6 ≤ length nodes.now }
    ensures { result ≡ (eqb (record_in nodes.now i).edges edges && eqb (record_in nodes.now i).ends ends) }
{
    let at = 6 * i;
    number_in(nodes, at + 3) == edges && number_in(nodes, at + 5) == ends
}

// The number that names a funclet, or 0 if there is none.
fn funclet_value(s: &[u8], y: RouteLayout, a: usize) -> u64
    requires { RoutesThere s.now y }
    ensures { result ≡ value_of (funclet_in (routes_in s.now y) a) }
{
    if a == 0 {
        return 0;
    }
    step_of(s, y, a - 1).value
}

// The mark of a funclet: one of fewer numbers than a set has room for, drawn from its value.
fn mark_of(value: u64) -> usize
    ensures { result ≡ mark_of value }
{
    (value % 1021) as usize
}

// Equal nodes with as many edges and ends: all but the route.
fn same_node(
    s: &[u8],
    y: RouteLayout,
    edges: &[u16],
    ends: &[u16],
    a: NodeRecord,
    b: NodeRecord,
) -> bool
    requires accepted { AcceptedRoutes (routes_in s.now y) }
    requires there { RoutesThere s.now y }
    requires fits_a { NodeFits edges.now ends.now a }
    requires fits_b { NodeFits edges.now ends.now b }
    requires edges { a.edges ≡ b.edges }
    requires ends { a.ends ≡ b.ends }
    ensures { result ≡ same_node (node_in (routes_in s.now y) edges.now ends.now a) (node_in (routes_in s.now y) edges.now ends.now b) }
{
    if !same_funclet(s, y, a.funclet, b.funclet) {
        return false;
    }
    same_branches(
        s,
        y,
        Kind::Edges,
        edges,
        a.first_edge,
        b.first_edge,
        a.edges,
    ) && same_branches(s, y, Kind::Ends, ends, a.first_end, b.first_end, a.ends)
}

fn same_funclet(s: &[u8], y: RouteLayout, a: usize, b: usize) -> bool
    requires { RoutesThere s.now y }
    ensures { result ≡ same_funclet (funclet_in (routes_in s.now y) a) (funclet_in (routes_in s.now y) b) }
{
    if a == 0 {
        return b == 0;
    }
    if b == 0 {
        return false;
    }
    let x = step_of(s, y, a - 1);
    let z = step_of(s, y, b - 1);
    x.value == z.value
}

// Whether the n branches of a kind from a on are those from b on. Each caller has its own copy, for its one kind.
#[inline(always)]
fn same_branches(
    s: &[u8],
    y: RouteLayout,
    kind: Kind,
    list: &[u16],
    a: usize,
    b: usize,
    n: usize,
) -> bool
    requires accepted { AcceptedRoutes (routes_in s.now y) }
    requires there { RoutesThere s.now y }
    requires first { 3 * (a + n) ≤ length list.now }
    requires second { 3 * (b + n) ≤ length list.now }
    ensures { result ≡ same (ordered kind) (map (meaning (routes_in s.now y) kind) (branches list.now a n)) (map (meaning (routes_in s.now y) kind) (branches list.now b n)) }
{
    for i in 0..n {
        let x = branch_in(list, a + i);
        let z = branch_in(list, b + i);
        if compare_branches(s, y, kind, x, z).is_ne() {
            return false;
        }
    }
    true
}
