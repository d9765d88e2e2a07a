// Resume after a funclet (15): the runtime resumes before it unwinds, so no such path can be.
ghost use Rattle.std.specs.Prelude.{◌≡◌};
ghost use Rattle.image.specs.Image.{routes_in};
ghost use Rattle.image.specs.Deal.{routes_of};
ghost use Rattle.image.specs.There.{RoutesThere};
ghost use Rattle.graph.specs.Route.{route_at, resumes_late, Placed};

use image::access::{path_in, route_in, step_in};
use image::section::RouteLayout;

// 'path end and step code count from 0 in their enums' order'
pub const HANDLER: u64 = 0;

pub const RESUME: u64 = 2;

pub const FUNCLET: u64 = 0;

// Whether some path of route r, whose paths start at `path` and their steps at `step`, resumes after a funclet.
pub fn resumes_late(s: &[u8], y: RouteLayout, r: usize, path: usize, step: usize) -> bool
    requires { Placed (routes_in s.now y) r path step × RoutesThere s.now y }
    ensures { result ≡ resumes_late (route_at (routes_of (routes_in s.now y)) r) }
{
    let n = route_in(s, y.routes, r).paths;
    let mut next = step;
    let mut found = false;
    'paths: for k in 0..n {
        let p = path_in(s, y.paths, path + k);
        let first = next;
        let size = p.steps;
        next += size;
        if p.end == RESUME {
            for j in 0..size {
                if step_in(s, y.steps, first + j).code == FUNCLET {
                    found = true;
                    break 'paths;
                }
            }
        }
    }
    found
}
