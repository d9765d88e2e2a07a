// The hop of a pair, among hops that rise.
ghost use Rattle.std.specs.Prelude.{◌≡◌, true, ◌<◌};
ghost use Rattle.unwind.specs.Interning.{is_lt};
ghost use Rattle.addition.specs.Ways.{compare_leaps};
ghost use Rattle.unwind.specs.Flags.{pair, row_leap, HopsRise, HopIs, HopStands};

use crate::hops::{HopRow, Hops, hop_at, hop_count};

// The hop from block b to block t, which there is; it is likely to be hop `near`. Whatever that is, the answer is the same.
pub fn find_hop(h: &Hops, near: usize, b: usize, t: usize) -> usize
    requires { HopsRise h.now × HopStands h.now (pair b t) }
    ensures { HopIs h.now (pair b t) result × (result < 2048) }
{
    if near < hop_count(h) {
        if is_hop(hop_at(h, near), b as u64, t as u64) {
            return near;
        }
    }
    search(h, b, t)
}

// Whether a hop goes from block b to block t.
fn is_hop(x: HopRow, b: u64, t: u64) -> bool
    ensures { result ≡ true → row_leap x ≡ pair b t }
{
    (x.source == b) & (x.has_end != 0) & (x.end == t)
}

// By halving: the rows are words, and no slice that a method searches.
fn search(h: &Hops, b: usize, t: usize) -> usize
    requires { HopsRise h.now × HopStands h.now (pair b t) }
    ensures { HopIs h.now (pair b t) result × (result < 2048) }
{
    let mut lo = 0;
    let mut hi = hop_count(h);
    while lo < hi {
        let mid = lo + (hi - lo) / 2;
        if comes_before(hop_at(h, mid), b as u64, t as u64) {
            lo = mid + 1;
        } else {
            hi = mid;
        }
    }
    lo
}

// Whether a hop stands before the one from block b to block t.
fn comes_before(x: HopRow, b: u64, t: u64) -> bool
    ensures { result ≡ is_lt (compare_leaps (row_leap x) (pair b t)) }
{
    if x.source != b {
        return x.source < b;
    }
    (x.has_end != 0) & (x.end < t)
}
