// The ends and edges of a node, laid behind those that are stored.
ghost use Rattle.std.specs.Prelude.{◌+◌, ◌*◌, ◌≤◌, ◌<◌, length};
ghost use Rattle.image.specs.Image.{routes_in};
ghost use Rattle.image.specs.Accepted.{AcceptedRoutes};
ghost use Rattle.image.specs.There.{RoutesThere};
ghost use Rattle.unwind.specs.Interning.{Starts, GroupIn, left_at, paths_of};
ghost use Rattle.unwind.specs.Laid.{ends_list, EndOf, EndLaid, EndsLaid, EdgesLaid};

use crate::tries::compare::Kind;
use crate::tries::paths::{Group, cut_at, left_of};
use crate::tries::runs::put_sorted;
use crate::tries::store::{Branch, branch_in};
use image::section::RouteLayout;

// The ends of the paths of a group that has n edges, from `at` on; how many there are. A path that leads on does not end here:
// where there are as many edges as paths, no end is looked for.
pub fn lay_ends_beside(
    s: &[u8],
    y: RouteLayout,
    starts: &[u16],
    g: Group,
    ends: &mut [u16],
    at: usize,
    n: usize,
) -> usize
    requires accepted { AcceptedRoutes (routes_in s.now y) }
    requires starts { Starts (routes_in s.now y) starts.now }
    requires group { GroupIn (routes_in s.now y) g }
    requires room { 3 * (at + length (ends_list (paths_of (routes_in s.now y) g))) ≤ length ends.old }
    requires there { RoutesThere s.now y }
    requires few { n + length (ends_list (paths_of (routes_in s.now y) g)) ≤ g.count }
    ensures { EndsLaid (routes_in s.now y) g ends.old at ends.new result }
{
    if n == g.count {
        return 0;
    }
    lay_ends(s, y, starts, g, ends, at)
}

// The ends of a group's paths, from `at` on; how many there are.
fn lay_ends(
    s: &[u8],
    y: RouteLayout,
    starts: &[u16],
    g: Group,
    ends: &mut [u16],
    at: usize,
) -> usize
    requires accepted { AcceptedRoutes (routes_in s.now y) }
    requires starts { Starts (routes_in s.now y) starts.now }
    requires group { GroupIn (routes_in s.now y) g }
    requires room { 3 * (at + length (ends_list (paths_of (routes_in s.now y) g))) ≤ length ends.old }
    requires there { RoutesThere s.now y }
    ensures { EndsLaid (routes_in s.now y) g ends.old at ends.new result }
{
    let mut n = 0;
    for k in 0..g.count {
        n = lay_end(s, y, starts, g, ends, at, n, g.first + k);
    }
    n
}

// The end of path q, put into the n from `at` on.
fn lay_end(
    s: &[u8],
    y: RouteLayout,
    starts: &[u16],
    g: Group,
    ends: &mut [u16],
    at: usize,
    n: usize,
    q: usize,
) -> usize
    requires accepted { AcceptedRoutes (routes_in s.now y) }
    requires starts { Starts (routes_in s.now y) starts.now }
    requires group { GroupIn (routes_in s.now y) g }
    requires path { q < length (routes_in s.now y).paths }
    requires room { 3 * (at + n + length (ends_list (left_at (routes_in s.now y) g q))) ≤ length ends.old }
    requires there { RoutesThere s.now y }
    ensures { EndLaid (routes_in s.now y) g q ends.old at n ends.new result }
{
    match end_of(s, y, starts, g, q) {
        None => n,
        Some(b) => put_sorted(s, y, Kind::Ends, ends, at, n, b),
    }
}

// The end of path q, if it is one of the group's and enters no funclet.
fn end_of(s: &[u8], y: RouteLayout, starts: &[u16], g: Group, q: usize) -> Option<Branch>
    requires accepted { AcceptedRoutes (routes_in s.now y) }
    requires starts { Starts (routes_in s.now y) starts.now }
    requires group { GroupIn (routes_in s.now y) g }
    requires path { q < length (routes_in s.now y).paths }
    requires there { RoutesThere s.now y }
    ensures { EndOf (routes_in s.now y) g q result }
{
    let left = left_of(s, y, starts, g, q)?;
    match cut_at(s, y, left.first, left.count) {
        Some(_) => None,
        None => Some(Branch {
            step: left.first,
            calls: left.count,
            what: q,
        }),
    }
}

// The n edges of a stack from `top` on, sorted from `at` on; how many there are.
pub fn lay_edges(
    s: &[u8],
    y: RouteLayout,
    stack: &[u16],
    top: usize,
    n: usize,
    edges: &mut [u16],
    at: usize,
) -> usize
    requires accepted { AcceptedRoutes (routes_in s.now y) }
    requires room { 3 * (at + n) ≤ length edges.old }
    requires there { RoutesThere s.now y }
    requires stack { 3 * (top + n) ≤ length stack.now }
    ensures { EdgesLaid (routes_in s.now y) stack.now top n edges.old at edges.new result }
{
    let mut count = 0;
    for k in 0..n {
        count = put_sorted(
            s,
            y,
            Kind::Edges,
            edges,
            at,
            count,
            branch_in(stack, top + k),
        );
    }
    count
}
