// Runs of branches that are sorted and in which nothing stands twice: one is put at its place, unless it stands there.
ghost use Rattle.std.specs.Prelude.{map, ◌+◌, ◌*◌, ◌≤◌, length};
ghost use Rattle.image.specs.Image.{routes_in};
ghost use Rattle.image.specs.Accepted.{AcceptedRoutes};
ghost use Rattle.image.specs.There.{RoutesThere};
ghost use Rattle.unwind.specs.Nodes.{branches, BranchSmall};
ghost use Rattle.unwind.specs.Interning.{ordered, meaning};
ghost use Rattle.unwind.specs.Runs.{SpotOf, Inserted, RunPut};

use crate::tries::compare::{Kind, compare_branches};
use crate::tries::store::{Branch, branch_in, put_branch};
use image::section::RouteLayout;
use std::cmp::Ordering;

// Puts a branch into the n from `at` on; how many there are then.
pub fn put_sorted(
    s: &[u8],
    y: RouteLayout,
    kind: Kind,
    list: &mut [u16],
    at: usize,
    n: usize,
    b: Branch,
) -> usize
    requires accepted { AcceptedRoutes (routes_in s.now y) }
    requires small { BranchSmall b }
    requires room { 3 * (at + n) + 3 ≤ length list.old }
    requires there { RoutesThere s.now y }
    ensures { RunPut (ordered kind) (meaning (routes_in s.now y) kind) list.old at n b list.new result }
{
    let Some(j) = spot_of(s, y, kind, list, at, n, b) else {
        return n;
    };
    insert(list, at + j, at + n, b);
    n + 1
}

// Where a branch goes among the n from `at` on, unless it stands there.
fn spot_of(
    s: &[u8],
    y: RouteLayout,
    kind: Kind,
    list: &[u16],
    at: usize,
    n: usize,
    b: Branch,
) -> Option<usize>
    requires accepted { AcceptedRoutes (routes_in s.now y) }
    requires small { BranchSmall b }
    requires there { RoutesThere s.now y }
    requires within { 3 * (at + n) ≤ length list.now }
    ensures { SpotOf (ordered kind) (meaning (routes_in s.now y) kind b) (map (meaning (routes_in s.now y) kind) (branches list.now at n)) result }
{
    for j in 0..n {
        match compare_branches(s, y, kind, b, branch_in(list, at + j)) {
            Ordering::Less => return Some(j),
            Ordering::Equal => return None,
            Ordering::Greater => {}
        }
    }
    Some(n)
}

// Puts b in place p of n branches: those from there on move up by one. Few do: `copy_within` is slower for so few.
pub fn insert(list: &mut [u16], p: usize, n: usize, b: Branch)
    requires small { BranchSmall b }
    requires within { p ≤ n }
    requires room { 3 * n + 3 ≤ length list.old }
    ensures { Inserted list.old p n b list.new }
{
    for k in (p..n).rev() {
        put_branch(list, k + 1, branch_in(list, k));
    }
    put_branch(list, p, b);
}
