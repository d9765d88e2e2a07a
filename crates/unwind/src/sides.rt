// What routes and ends say of blocks: the blocks that each route guards, and where each end lands.
ghost use Rattle.std.specs.Prelude.{◌≡◌, ◌*◌, ◌≤◌, ◌<◌, length};
ghost use Rattle.image.specs.Image.{routes_in};
ghost use Rattle.image.specs.Deal.{end_of};
ghost use Rattle.image.specs.There.{RoutesThere};
ghost use Rattle.graph.specs.Lent.{held_of};
ghost use Rattle.graph.specs.WellFormed.{Built};
ghost use Rattle.unwind.specs.Stands.{Stands};
ghost use Rattle.unwind.specs.Nodes.{path_record};
ghost use Rattle.unwind.specs.Sides.{landing, Lands, GuardsIn};

use crate::blocks::{guard_blocks, leading_block};
use crate::emit::entries::LEAVE;
use crate::routes::path_of;
use crate::tries::store::branch_in;
use graph::resume::HANDLER;
use graph::store::Graph;
use image::access::route_in;
use image::section::RouteLayout;

// Where it resumes: in the block that it came from. A landing is one number, as it is kept in a slice of numbers.
pub const STAY: usize = 65534;

const PROPAGATE: u64 = 1;

// The blocks that each route guards, a set for each.
#[tactic(auto, using(crate::proofs::RouteChecks::counted))]
pub fn guard_routes(g: &Graph, built: usize, s: &[u8], y: RouteLayout, guards: &mut [u64])
    requires stands { Stands (held_of g.now).graph }
    requires built { Built (held_of g.now).graph built }
    requires guards_fit { 16 * length (routes_in s.now y).routes ≤ length guards.old }
    requires there { RoutesThere s.now y }
    ensures { GuardsIn (held_of g.now).graph (routes_in s.now y) guards.new (length (routes_in s.now y).routes) }
{
    let n = y.routes.count as usize;
    for r in 0..n {
        let route = route_in(s, y.routes, r);
        guard_blocks(g, built, route.start, route.end, guards, r);
    }
}

// Where the first n ends land.
pub fn land_ends(
    g: &Graph,
    built: usize,
    hints: &[u16],
    s: &[u8],
    y: RouteLayout,
    ends: &[u16],
    n: usize,
    landings: &mut [u16],
)
    requires stands { Stands (held_of g.now).graph }
    requires built { Built (held_of g.now).graph built }
    requires landings_fit { n ≤ length landings.old }
    requires there { RoutesThere s.now y }
    requires ends_fit { 3 * n ≤ length ends.now }
    ensures { Lands (held_of g.now).graph (routes_in s.now y) ends.now landings.new n }
{
    // An end is a number: it has three numbers in one slice, and one in the other.
    for k in 0..n {
        let b = land(g, built, hints, s, y, branch_in(ends, k).what);
        landings[k] = b as u16;
    }
}

// Where the end of path p lands: at the block of its handler, or LEAVE where it propagates, or STAY where it resumes.
fn land(g: &Graph, built: usize, hints: &[u16], s: &[u8], y: RouteLayout, p: usize) -> usize
    requires stands { Stands (held_of g.now).graph }
    requires built { Built (held_of g.now).graph built }
    requires there { RoutesThere s.now y }
    ensures lands { result ≡ landing (held_of g.now).graph (end_of (path_record (routes_in s.now y) p)) }
    ensures small { result < 65536 }
{
    let path = path_of(s, y, p);
    if path.end == PROPAGATE {
        return LEAVE;
    }
    if path.end != HANDLER {
        return STAY;
    }
    leading_block(g, built, hints, path.handler).unwrap_or(0)
}
