// Records of routes that are there. One that a function `_in` reads is among them, by contract; `_of` reads zeros past the last.
ghost use Rattle.std.specs.Prelude.{[], ◌≡◌, get_or};
ghost use Rattle.image.specs.Record.{path_from, step_from};
ghost use Rattle.image.specs.Image.{records_in};
ghost use Rattle.image.specs.There.{RoutesThere};

use image::access::{path_in, step_in};
use image::record::{Path, Step};
use image::section::RouteLayout;

pub fn path_of(s: &[u8], y: RouteLayout, i: usize) -> Path
    requires { RoutesThere s.now y }
    ensures { result ≡ get_or (records_in path_from s.now y.paths) i (path_from [] 0) }
{
    let count = y.paths.count as usize;
    if i < count {
        return path_in(s, y.paths, i);
    }
    Path {
        end: 0,
        handler: 0,
        steps: 0,
    }
}

pub fn step_of(s: &[u8], y: RouteLayout, i: usize) -> Step
    requires { RoutesThere s.now y }
    ensures { result ≡ get_or (records_in step_from s.now y.steps) i (step_from [] 0) }
{
    let count = y.steps.count as usize;
    if i < count {
        return step_in(s, y.steps, i);
    }
    Step { code: 0, value: 0 }
}
