// Routes: the range of each, Resume after a funclet, and the entries that its paths name (10 to 12, 15, 14).
ghost use Rattle.std.specs.Prelude.{◌≡◌, ◌+◌, ◌<◌, ◌≤◌, length, IfOk};
ghost use Rattle.image.specs.Whole.{routes_of};
ghost use Rattle.image.specs.Deal.{routes_of as dealt};
ghost use Rattle.graph.specs.Error.{check_of};
ghost use Rattle.graph.specs.Fold.{checks};
ghost use Rattle.graph.specs.Transfer.{table_of};
ghost use Rattle.graph.specs.Route.{route_check, paths_before, steps_before, path_in, Placed};
ghost use Rattle.builder.specs.Code.{image_of};
ghost use Rattle.builder.specs.Ranges.{named_check, path_check, routes_check};

use crate::code::Code;
use crate::lookup::find;
use crate::ranges::check_range;
use graph::error::AddressBuildError;
use graph::resume::{FUNCLET, HANDLER, resumes_late};
use image::whole::Routes;

// The first refusal among those of the routes. The scan carries along where a route's paths and their steps start.
#[tactic(auto, using(crate::proofs::Row::rows), unfolding(graph::specs::Leaders::routes))]
pub fn check_routes(code: &Code<'_>) -> Result<(), AddressBuildError>
    ensures { check_of result ≡ routes_check (image_of code.now) }
{
    let routes = code.image.routes();
    let n = routes.routes().len();
    let mut path = 0;
    let mut step = 0;
    for r in 0..n {
        step = check_route(code, &routes, r, path, step)?;
        path += routes.routes().get(r).paths;
    }
    Ok(())
}

// Route r, whose paths start at `path` and their steps at `step`: where the steps of the next route start.
#[tactic(auto, using(crate::proofs::Row::rows))]
fn check_route(
    code: &Code<'_>,
    routes: &Routes<'_>,
    r: usize,
    path: usize,
    step: usize,
) -> Result<usize, AddressBuildError>
    requires placed { Placed (routes_of routes.now) r path step }
    ensures check { check_of result ≡ route_check (table_of (image_of code.now)) (dealt (routes_of routes.now)) r }
    ensures next { IfOk result (λ behind. behind ≡ steps_before (routes_of routes.now) (paths_before (routes_of routes.now) (r + 1))) }
{
    let route = routes.routes().get(r);
    check_range(code, route.start, route.end)?;
    if resumes_late(routes.bytes, routes.layout, r, path, step) {
        return Err(AddressBuildError::ResumeAfterFunclet { route: r });
    }
    check_entries(code, routes, path, route.paths, step)
}

// The entries of the n paths from `path` on, whose steps start at `step`: where the steps of the path behind them start.
#[tactic(auto, using(crate::proofs::Row::rows))]
fn check_entries(
    code: &Code<'_>,
    routes: &Routes<'_>,
    path: usize,
    n: usize,
    step: usize,
) -> Result<usize, AddressBuildError>
    requires paths_in { path + n ≤ length (routes_of routes.now).paths }
    requires step { step ≡ steps_before (routes_of routes.now) path }
    ensures check { check_of result ≡ checks (λ k. path_check (table_of (image_of code.now)) (path_in (routes_of routes.now) (path + k))) n }
    ensures next { IfOk result (λ behind. behind ≡ steps_before (routes_of routes.now) (path + n)) }
{
    let mut next = step;
    for k in 0..n {
        next = check_path(code, routes, path + k, next)?;
    }
    Ok(next)
}

// The entries of path p, whose steps start at `step`: its funclets in order, then its handler. Where the steps of the next start.
#[tactic(auto, using(crate::proofs::Row::rows))]
fn check_path(
    code: &Code<'_>,
    routes: &Routes<'_>,
    p: usize,
    step: usize,
) -> Result<usize, AddressBuildError>
    requires p_in { p < length (routes_of routes.now).paths }
    requires step { step ≡ steps_before (routes_of routes.now) p }
    ensures check { check_of result ≡ path_check (table_of (image_of code.now)) (path_in (routes_of routes.now) p) }
    ensures next { IfOk result (λ behind. behind ≡ steps_before (routes_of routes.now) (p + 1)) }
{
    let path = routes.paths().get(p);
    let size = path.steps;
    for j in 0..size {
        let x = routes.steps().get(step + j);
        if x.code == FUNCLET {
            check_entry(code, x.value)?;
        }
    }
    if path.end == HANDLER {
        check_entry(code, path.handler)?;
    }
    Ok(step + size)
}

fn check_entry(code: &Code<'_>, a: u64) -> Result<(), AddressBuildError>
    ensures { check_of result ≡ named_check (table_of (image_of code.now)) a }
{
    let Some(_) = find(code, a) else {
        return Err(AddressBuildError::MissingRouteEntry { address: a });
    };
    Ok(())
}
