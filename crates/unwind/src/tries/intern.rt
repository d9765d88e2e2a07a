// Interning: the node of a group of paths, behind the nodes of the groups that it leads to.
ghost use Rattle.std.specs.Prelude.{◌≡◌, suc, ◌+◌, ◌≤◌, ◌<◌, length};
ghost use Rattle.image.specs.Image.{routes_in};
ghost use Rattle.image.specs.There.{RoutesThere};
ghost use Rattle.unwind.specs.Nodes.{nodes_in, Stored};
ghost use Rattle.unwind.specs.Interning.{paths_of};
ghost use Rattle.unwind.specs.Laid.{ends_list};
ghost use Rattle.unwind.specs.Lower.{Lower};
ghost use Rattle.unwind.specs.Seen.{Seen};
ghost use Rattle.unwind.specs.Kept.{interned_at};
ghost use Rattle.unwind.specs.Interns.{weight, group_behind, funclet_of, Grouped, Room, Closes, Interns};

use crate::tries::keys::{Key, next_key};
use crate::tries::lay::{lay_edges, lay_ends_beside};
use crate::tries::nodes::{Interned, keep_node};
use crate::tries::paths::Group;
use crate::tries::store::{Branch, Counts, NodeRecord, put_branch};
use image::section::RouteLayout;

// The node of a group. It calls itself for each group that its paths lead to, which has fewer steps left; the edges of the
// calls that are not finished stand on the stack, this one's from `top` on. How much is stored is lent too: to hand it over and
// give it back would cost more.
pub fn intern(
    s: &[u8],
    y: RouteLayout,
    starts: &[u16],
    g: Group,
    nodes: &mut [u16],
    edges: &mut [u16],
    ends: &mut [u16],
    stack: &mut [u16],
    seen: &mut [u64; 16],
    counts: &mut Counts,
    top: usize,
) -> usize
    requires grouped { Grouped (routes_in s.now y) starts.now g }
    requires stored { Stored nodes.old edges.old ends.old counts.old }
    requires room { Room nodes.old edges.old ends.old stack.old counts.old top (suc (weight (paths_of (routes_in s.now y) g))) (weight (paths_of (routes_in s.now y) g)) (length (paths_of (routes_in s.now y) g)) }
    requires lower { Lower (nodes_in (routes_in s.now y) nodes.old edges.old ends.old counts.old.nodes) }
    requires seen { Seen (routes_in s.now y) nodes.old counts.old.nodes seen.old }
    requires there { RoutesThere s.now y }
    ensures interns { Interns (routes_in s.now y) g nodes.old edges.old ends.old stack.old counts.old top nodes.new edges.new ends.new stack.new (interned_at result counts.new) }
    ensures seen { Seen (routes_in s.now y) nodes.new counts.new.nodes seen.new }
{
    let mut n = 0;
    let mut last = None;
    while let Some(key) = next_key(s, y, starts, g, last) {
        let behind = group_behind(g, key);
        let child = intern(
            s,
            y,
            starts,
            behind,
            nodes,
            edges,
            ends,
            stack,
            seen,
            counts,
            top + n,
        );
        put_branch(
            stack,
            top + n,
            Branch {
                step: key.step,
                calls: key.calls,
                what: child,
            },
        );
        n += 1;
        last = Some(key);
    }
    let closed = close_node(
        s, y, starts, g, nodes, edges, ends, stack, seen, *counts, top, n,
    );
    *counts = closed.counts;
    closed.place
}

// The node of a group whose edges are the n of the stack from `top` on.
fn close_node(
    s: &[u8],
    y: RouteLayout,
    starts: &[u16],
    g: Group,
    nodes: &mut [u16],
    edges: &mut [u16],
    ends: &mut [u16],
    stack: &[u16],
    seen: &mut [u64; 16],
    counts: Counts,
    top: usize,
    n: usize,
) -> Interned
    requires grouped { Grouped (routes_in s.now y) starts.now g }
    requires stored { Stored nodes.old edges.old ends.old counts }
    requires room { Room nodes.old edges.old ends.old stack.now counts top 1 n (length (ends_list (paths_of (routes_in s.now y) g))) }
    requires lower { Lower (nodes_in (routes_in s.now y) nodes.old edges.old ends.old counts.nodes) }
    requires seen { Seen (routes_in s.now y) nodes.old counts.nodes seen.old }
    requires there { RoutesThere s.now y }
    requires few { n + length (ends_list (paths_of (routes_in s.now y) g)) ≤ g.count }
    ensures closes { Closes (routes_in s.now y) g nodes.old edges.old ends.old stack.now counts top n nodes.new edges.new ends.new result }
    ensures seen { Seen (routes_in s.now y) nodes.new result.counts.nodes seen.new }
{
    let first_edge = counts.edges;
    let first_end = counts.ends;
    let edge_count = lay_edges(s, y, stack, top, n, edges, first_edge);
    let end_count = lay_ends_beside(s, y, starts, g, ends, first_end, n);
    let node = NodeRecord {
        funclet: funclet_of(g),
        route: g.route,
        first_edge,
        edges: edge_count,
        first_end,
        ends: end_count,
    };
    keep_node(s, y, nodes, edges, ends, seen, counts, node)
}

// The paths that go on behind a key.
fn group_behind(g: Group, key: Key) -> Group
    requires behind { g.depth ≤ key.step }
    requires steps { key.step + key.calls < 512 }
    requires order { key.first ≤ key.last }
    requires paths { key.last < 128 }
    ensures { result ≡ group_behind g key }
{
    Group {
        route: g.route,
        first: key.first,
        count: key.last - key.first + 1,
        from: key.step - g.depth,
        depth: g.depth + key.calls + 1,
    }
}

// The funclet that a group's paths have entered last.
fn funclet_of(g: Group) -> usize
    requires { g.from + g.depth ≤ 512 }
    ensures { result ≡ funclet_of g }
{
    if g.depth == 0 {
        return 0;
    }
    g.from + g.depth
}
