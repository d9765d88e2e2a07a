// The ways out of one block, sorted and without repeats, in scratch that a caller lends: three numbers for each, where its
// calls stand and its end, a block's number or LEAVE.
ghost use Rattle.std.specs.Prelude.{◌+◌, ◌*◌, ◌≤◌, length};
ghost use Rattle.image.specs.Image.{routes_in};
ghost use Rattle.image.specs.There.{RoutesThere};
ghost use Rattle.unwind.specs.Nodes.{BranchSmall};
ghost use Rattle.unwind.specs.Entries.{Ordered, Compared, PlaceOf, EntryPut};

use crate::tries::compare::compare_calls;
use crate::tries::runs::insert;
use crate::tries::store::{Branch, branch_in, put_branch};
use image::section::RouteLayout;
use std::cmp::Ordering;

// Out of the function: behind all blocks. An entry holds it in the one number that its end has.
pub const LEAVE: usize = 65535;

// Puts x among n entries, and answers how many there are then. Of two with the same end and the same tags the one whose
// calls stand first is kept.
pub fn put_entry(s: &[u8], y: RouteLayout, entries: &mut [u16], n: usize, x: Branch) -> usize
    requires ordered { Ordered (routes_in s.now y) entries.old n }
    requires small { BranchSmall x }
    requires room { 3 * n + 3 ≤ length entries.old }
    requires there { RoutesThere s.now y }
    ensures { EntryPut (routes_in s.now y) entries.old n x entries.new result }
{
    match entry_place(s, y, entries, n, x) {
        Ok(p) => {
            if x.step < branch_in(entries, p).step {
                put_branch(entries, p, x);
            }
            n
        }
        Err(p) => {
            insert(entries, p, n, x);
            n + 1
        }
    }
}

// Where an entry stands, or the place before which it belongs, as `binary_search_by` answers it: an entry is three numbers
// of the slice, which that does not search.
fn entry_place(
    s: &[u8],
    y: RouteLayout,
    entries: &[u16],
    n: usize,
    x: Branch,
) -> Result<usize, usize>
    requires ordered { Ordered (routes_in s.now y) entries.now n }
    requires small { BranchSmall x }
    requires there { RoutesThere s.now y }
    ensures { PlaceOf (routes_in s.now y) entries.now n x result }
{
    let mut lo = 0;
    let mut hi = n;
    while lo < hi {
        let mid = lo + (hi - lo) / 2;
        let e = branch_in(entries, mid);
        match compare_entries(s, y, x, e) {
            Ordering::Less => hi = mid,
            Ordering::Greater => lo = mid + 1,
            Ordering::Equal => return Ok(mid),
        }
    }
    Err(lo)
}

// By end, then by tags.
fn compare_entries(s: &[u8], y: RouteLayout, a: Branch, b: Branch) -> Ordering
    requires small_a { BranchSmall a }
    requires small_b { BranchSmall b }
    requires there { RoutesThere s.now y }
    ensures { Compared (routes_in s.now y) a b result }
{
    let calls = || compare_calls(s, y, a.step, a.calls, b.step, b.calls);
    a.what.cmp(&b.what).then_with(calls)
}
