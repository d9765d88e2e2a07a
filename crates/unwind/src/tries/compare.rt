// Comparisons of what stands in a route image: tags from the first on, then what comes after them.
ghost use Rattle.std.specs.Prelude.{◌≡◌};
ghost use Prim.Native.Nat.{◌+◌, ◌<◌};
ghost use Rattle.image.specs.Image.{routes_in};
ghost use Rattle.image.specs.Deal.{end_of};
ghost use Rattle.image.specs.Accepted.{AcceptedRoutes};
ghost use Rattle.image.specs.There.{RoutesThere};
ghost use Rattle.addition.specs.Order.{compare_tags, compare_ends};
ghost use Rattle.unwind.specs.Nodes.{path_record, tags_in, BranchSmall};
ghost use Rattle.unwind.specs.Interning.{ordering_of, ordered, meaning};

use crate::routes::{path_of, step_of};
use crate::tries::store::Branch;
use image::section::RouteLayout;
use std::cmp::Ordering;

// What branches are: edges to nodes, or ends of paths.
#[derive(Clone, Copy, Debug, PartialEq, Eq)]
pub enum Kind {
    Edges,
    Ends,
}

const HANDLER: u64 = 0;

// The tags of the n steps from a on, and of the k steps from b on.
pub fn compare_calls(s: &[u8], y: RouteLayout, a: usize, n: usize, b: usize, k: usize) -> Ordering
    requires first { a + n < 1048576 }
    requires second { b + k < 1048576 }
    requires there { RoutesThere s.now y }
    ensures { ordering_of result ≡ compare_tags (tags_in (routes_in s.now y) a n) (tags_in (routes_in s.now y) b k) }
{
    for i in 0..n.min(k) {
        let x = step_of(s, y, a + i);
        let z = step_of(s, y, b + i);
        let order = x.value.cmp(&z.value);
        if order.is_ne() {
            return order;
        }
    }
    n.cmp(&k)
}

// The ends of paths p and q: Handler by address, Propagate, Resume.
pub fn compare_ends(s: &[u8], y: RouteLayout, p: usize, q: usize) -> Ordering
    requires accepted { AcceptedRoutes (routes_in s.now y) }
    requires there { RoutesThere s.now y }
    ensures { ordering_of result ≡ compare_ends (end_of (path_record (routes_in s.now y) p)) (end_of (path_record (routes_in s.now y) q)) }
{
    let a = path_of(s, y, p);
    let b = path_of(s, y, q);
    if a.end == HANDLER && b.end == HANDLER {
        return a.handler.cmp(&b.handler);
    }
    a.end.cmp(&b.end)
}

// Branches of one kind: the calls before them, and then the nodes, or the ends of the paths.
pub fn compare_branches(s: &[u8], y: RouteLayout, kind: Kind, a: Branch, b: Branch) -> Ordering
    requires accepted { AcceptedRoutes (routes_in s.now y) }
    requires small_a { BranchSmall a }
    requires small_b { BranchSmall b }
    requires there { RoutesThere s.now y }
    ensures { ordering_of result ≡ ordered kind (meaning (routes_in s.now y) kind a) (meaning (routes_in s.now y) kind b) }
{
    let calls = compare_calls(s, y, a.step, a.calls, b.step, b.calls);
    if calls.is_ne() {
        return calls;
    }
    match kind {
        Kind::Edges => a.what.cmp(&b.what),
        Kind::Ends => compare_ends(s, y, a.what, b.what),
    }
}
