// The checks of an addition's routes, before anything is made of them: 10 to 12, 15 and 17.
ghost use Rattle.std.specs.Prelude.{◌≡◌, ◌&&◌, List, ℕ, ◌+◌, ◌≤◌, eqb, ltb, length};
ghost use Rattle.image.specs.Image.{routes_in};
ghost use Rattle.image.specs.Deal.{UnwindPath, routes_of};
ghost use Rattle.image.specs.Accepted.{AcceptedRoutes};
ghost use Rattle.image.specs.There.{RoutesThere};
ghost use Rattle.graph.specs.Graph.{block};
ghost use Rattle.graph.specs.Lent.{held_of};
ghost use Rattle.graph.specs.Error.{check_of};
ghost use Rattle.graph.specs.Fold.{checks};
ghost use Rattle.graph.specs.Table.{below, code_end_of, range_check};
ghost use Rattle.graph.specs.Route.{steps_before, Placed};
ghost use Rattle.graph.specs.WellFormed.{Built};
ghost use Rattle.unwind.specs.Stands.{Stands, route_of};
ghost use Rattle.addition.specs.Add.{range_leads, route_check};

use crate::blocks::{block_from, is_start, position};
use graph::error::AddressBuildError;
use graph::resume::resumes_late;
use graph::store::Graph;
use graph::store::blocks::block_in;
use graph::store::table::{entries, table_in};
use image::access::{path_in, route_in};
use image::section::RouteLayout;

// The first refusal among those of the routes. The scan carries along where a route's paths and their steps start.
#[tactic(auto, using(crate::proofs::RouteChecks::children))]
pub fn check_routes(
    g: &Graph,
    built: usize,
    s: &[u8],
    y: RouteLayout,
) -> Result<(), AddressBuildError>
    requires stands { Stands (held_of g.now).graph }
    requires built { Built (held_of g.now).graph built }
    requires accepted { AcceptedRoutes (routes_in s.now y) }
    requires there { RoutesThere s.now y }
    ensures { check_of result ≡ checks (route_check (held_of g.now).graph (routes_of (routes_in s.now y))) (length (routes_of (routes_in s.now y))) }
{
    let end = code_end(g);
    let all = y.routes;
    let n = all.count as usize;
    let mut path = 0;
    let mut step = 0;
    for r in 0..n {
        check_route(g, built, end, s, y, r, path, step)?;
        let size = route_in(s, all, r).paths;
        step = steps_behind(s, y, path, size, step);
        path += size;
    }
    Ok(())
}

// Route r, whose paths start at `path` and their steps at `step`.
#[tactic(auto, using(crate::proofs::RouteChecks::counted))]
fn check_route(
    g: &Graph,
    built: usize,
    code_end: u64,
    s: &[u8],
    y: RouteLayout,
    r: usize,
    path: usize,
    step: usize,
) -> Result<(), AddressBuildError>
    requires stands { Stands (held_of g.now).graph }
    requires built { Built (held_of g.now).graph built }
    requires end_is { code_end ≡ code_end_of (held_of g.now).graph.table }
    requires placed { Placed (routes_in s.now y) r path step }
    requires there { RoutesThere s.now y }
    ensures { check_of result ≡ route_check (held_of g.now).graph (routes_of (routes_in s.now y)) r }
{
    let route = route_in(s, y.routes, r);
    let start = route.start;
    let end = route.end;
    let first = position(g, start);
    let past = position(g, end);
    check_range(g, code_end, start, end, first, past)?;
    if resumes_late(s, y, r, path, step) {
        return Err(AddressBuildError::ResumeAfterFunclet { route: r });
    }
    check_leads(g, built, first, past)
}

// Where the steps of the path behind the n paths from `path` on start, if theirs start at `step`.
#[tactic(auto, using(crate::proofs::RouteChecks::children))]
fn steps_behind(s: &[u8], y: RouteLayout, path: usize, n: usize, step: usize) -> usize
    requires accepted { AcceptedRoutes (routes_in s.now y) }
    requires within { path + n ≤ length (routes_in s.now y).paths }
    requires starts { step ≡ steps_before (routes_in s.now y) path }
    requires there { RoutesThere s.now y }
    ensures { result ≡ steps_before (routes_in s.now y) (path + n) }
{
    let mut next = step;
    for k in 0..n {
        next += path_in(s, y.paths, path + k).steps;
    }
    next
}

// The greatest end of all: a range may end there, where no instruction starts.
#[tactic(auto, unfolding(graph::specs::Table::code_end_of))]
fn code_end(g: &Graph) -> u64
    ensures { result ≡ code_end_of (held_of g.now).graph.table }
{
    entries(g).iter().fold(0, |greatest, e| e.end.max(greatest))
}

// 10 to 12 of a range, whose ends have the positions `first` and `past`.
#[tactic(auto, unfolding(graph::specs::Table::range_check))]
fn check_range(
    g: &Graph,
    code_end: u64,
    start: u64,
    end: u64,
    first: usize,
    past: usize,
) -> Result<(), AddressBuildError>
    requires stands { Stands (held_of g.now).graph }
    requires end_is { code_end ≡ code_end_of (held_of g.now).graph.table }
    requires first_is { first ≡ below (held_of g.now).graph.table start }
    requires past_is { past ≡ below (held_of g.now).graph.table end }
    ensures { check_of result ≡ range_check (held_of g.now).graph.table start end }
{
    if end <= start {
        return Err(AddressBuildError::EmptyProtectedRange { start, end });
    }
    if !is_start(g, first, start) {
        return Err(AddressBuildError::MissingRangeStart { address: start });
    }
    if end == code_end || is_start(g, past, end) {
        return Ok(());
    }
    Err(AddressBuildError::MissingRangeEnd { address: end })
}

// 17 of a range whose ends have the positions `first` and `past`: the built blocks that its instructions lead stand one
// behind the other.
fn check_leads(g: &Graph, built: usize, first: usize, past: usize) -> Result<(), AddressBuildError>
    requires stands { Stands (held_of g.now).graph }
    requires built { Built (held_of g.now).graph built }
    requires past_within { past ≤ length (held_of g.now).graph.table }
    ensures { (start end : ℕ) → first ≡ below (held_of g.now).graph.table start → past ≡ below (held_of g.now).graph.table end → (ps : List UnwindPath) → check_of result ≡ checks (range_leads (held_of g.now).graph (route_of start end ps)) (length (held_of g.now).graph.table) }
{
    let mut b = block_from(g, built, first);
    for p in first..past {
        if !begins_at(g, built, b, p) {
            let address = table_in(g, p).address;
            return Err(AddressBuildError::RouteAddressNotBlockStart { address });
        }
        b += 1;
    }
    Ok(())
}

// Whether b is a built block that begins at position p.
fn begins_at(g: &Graph, built: usize, b: usize, p: usize) -> bool
    requires { built ≤ length (held_of g.now).graph.blocks }
    ensures { result ≡ (ltb b built && eqb (block (held_of g.now).graph b).first p) }
{
    b < built && block_in(g, b).first == p as u64
}
