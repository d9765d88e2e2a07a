// The tries of the routes, in scratch that a caller lends. `trie.rs`.
pub mod compare;
mod intern;
mod keys;
mod lay;
pub mod nodes;
mod paths;
pub mod runs;
pub mod store;

ghost use Rattle.std.specs.Prelude.{◌≡◌};
ghost use Rattle.image.specs.Image.{routes_in};
ghost use Rattle.image.specs.Accepted.{AcceptedRoutes};
ghost use Rattle.image.specs.There.{RoutesThere};
ghost use Rattle.unwind.specs.Interns.{root_group};
ghost use Rattle.unwind.specs.Routed.{Scratch, TriesIn};

use crate::tries::intern::intern;
use crate::tries::paths::{Group, path_starts};
use crate::tries::store::Counts;
use image::access::route_in;
use image::section::RouteLayout;

// The nodes of all routes, and the root of each; how much is stored of them.
pub fn intern_routes(
    s: &[u8],
    y: RouteLayout,
    starts: &mut [u16],
    nodes: &mut [u16],
    edges: &mut [u16],
    ends: &mut [u16],
    stack: &mut [u16],
    roots: &mut [u16],
) -> Counts
    requires { AcceptedRoutes (routes_in s.now y) × Scratch (routes_in s.now y) starts.old nodes.old edges.old ends.old stack.old roots.old × RoutesThere s.now y }
    ensures { TriesIn (routes_in s.now y) nodes.new edges.new ends.new roots.new result }
{
    path_starts(s, y, starts);
    let n = y.routes.count as usize;
    let mut counts = Counts {
        nodes: 0,
        edges: 0,
        ends: 0,
    };
    let mut seen = [0u64; 16];
    let mut first = 0;
    for r in 0..n {
        let count = route_in(s, y.routes, r).paths;
        let group = root_group(r, first, count);
        let root = intern(
            s,
            y,
            starts,
            group,
            nodes,
            edges,
            ends,
            stack,
            &mut seen,
            &mut counts,
            0,
        );
        roots[r] = root as u16;
        first += count;
    }
    counts
}

// All paths of a route: none has gone a step yet.
fn root_group(route: usize, first: usize, count: usize) -> Group
    ensures { result ≡ root_group route first count }
{
    Group {
        route,
        first,
        count,
        from: 0,
        depth: 0,
    }
}
