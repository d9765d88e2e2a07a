// The paths of a route that begin with the same steps, and what is left of them. Nothing is copied: the steps stand in the
// image.
ghost use Rattle.std.specs.Prelude.{◌≡◌, ◌+◌, ◌≤◌, ◌<◌, length};
ghost use Rattle.image.specs.Image.{routes_in};
ghost use Rattle.image.specs.Accepted.{AcceptedRoutes};
ghost use Rattle.image.specs.There.{RoutesThere};
ghost use Rattle.unwind.specs.Interning.{same_steps, Starts, GroupIn, LeftOf, Cuts};

use crate::tries::store::number_in;
use image::access::{path_in, step_in};
use image::section::RouteLayout;

pub const FUNCLET: u64 = 0;

// Of a route's paths, those of the `count` from `first` on that begin with the `depth` steps from `from` on.
#[derive(Clone, Copy)]
pub struct Group {
    pub route: usize,
    pub first: usize,
    pub count: usize,
    pub from: usize,
    pub depth: usize,
}

// Consecutive steps.
#[derive(Clone, Copy)]
pub struct Steps {
    pub first: usize,
    pub count: usize,
}

// Where the steps of each path start, and where those of the last one end.
pub fn path_starts(s: &[u8], y: RouteLayout, starts: &mut [u16])
    requires accepted { AcceptedRoutes (routes_in s.now y) }
    requires room { length (routes_in s.now y).paths < length starts.old }
    requires there { RoutesThere s.now y }
    ensures { Starts (routes_in s.now y) starts.new }
{
    let n = y.paths.count as usize;
    let mut next = 0;
    for p in 0..n {
        starts[p] = next as u16;
        next += path_in(s, y.paths, p).steps;
    }
    starts[n] = next as u16;
}

// The steps that are left of path q, if it is one of the group's.
pub fn left_of(s: &[u8], y: RouteLayout, starts: &[u16], g: Group, q: usize) -> Option<Steps>
    requires accepted { AcceptedRoutes (routes_in s.now y) }
    requires starts { Starts (routes_in s.now y) starts.now }
    requires group { GroupIn (routes_in s.now y) g }
    requires path { q < length (routes_in s.now y).paths }
    requires there { RoutesThere s.now y }
    ensures { LeftOf (routes_in s.now y) g q result }
{
    let first = number_in(starts, q);
    let count = number_in(starts, q + 1) - first;
    let depth = g.depth;
    if count < depth {
        return None;
    }
    if !same_steps(s, y, g.from, first, depth) {
        return None;
    }
    Some(Steps {
        first: first + depth,
        count: count - depth,
    })
}

// Whether the n steps from a on are those from b on.
fn same_steps(s: &[u8], y: RouteLayout, a: usize, b: usize, n: usize) -> bool
    requires accepted { AcceptedRoutes (routes_in s.now y) }
    requires there { RoutesThere s.now y }
    requires first { a + n ≤ length (routes_in s.now y).steps }
    requires second { b + n ≤ length (routes_in s.now y).steps }
    ensures { result ≡ same_steps (routes_in s.now y) a b n }
{
    if a == b {
        return true;
    }
    for i in 0..n {
        let x = step_in(s, y.steps, a + i);
        let z = step_in(s, y.steps, b + i);
        if x.code != z.code || x.value != z.value {
            return false;
        }
    }
    true
}

// How many of the n steps from a on are calls before the first funclet, if there is one.
pub fn cut_at(s: &[u8], y: RouteLayout, a: usize, n: usize) -> Option<usize>
    requires few { a + n ≤ 1024 }
    requires there { RoutesThere s.now y }
    requires within { a + n ≤ length (routes_in s.now y).steps }
    ensures { Cuts (routes_in s.now y) a n result }
{
    for i in 0..n {
        if step_in(s, y.steps, a + i).code == FUNCLET {
            return Some(i);
        }
    }
    None
}
