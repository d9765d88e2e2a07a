// The ways out of a block, stored behind the hops that there are.
ghost use Rattle.std.specs.Prelude.{◌≡◌, ◌+◌, ◌*◌, ◌≤◌, ◌<◌, length};
ghost use Rattle.unwind.specs.HopWords.{rows_in, ends_at, hop_to, last_leaps, rows_then, rows_on, InOrder, HopsStored};

use crate::emit::entries::LEAVE;
use crate::hops::{
    HopRow, Hops, ListRow, add_hop, add_list, hop_at, hop_count, list_count, widen_last,
};
use crate::tries::store::{Branch, branch_in};

// The n entries of block b.
pub fn add_exits(h: &mut Hops, b: usize, exits: &[u16], n: usize)
    requires { InOrder (rows_in h.old) × (length (rows_in h.old).lists + n ≤ 4096) × (length (rows_on (rows_in h.old) b exits.now n).hops ≤ 2048) × (3 * n ≤ length exits.now) }
    ensures { HopsStored h.old h.new (rows_on (rows_in h.old) b exits.now n) }
{
    for k in 0..n {
        let e = branch_in(exits, k);
        add_exit(h, b, e);
    }
}

// An entry of block b: a list of the last hop if that makes the same leap, else a hop behind it.
pub fn add_exit(h: &mut Hops, b: usize, e: Branch)
    requires { InOrder (rows_in h.old) × (length (rows_in h.old).lists < 4096) × (length (rows_then (rows_in h.old) b e).hops ≤ 2048) }
    ensures { HopsStored h.old h.new (rows_then (rows_in h.old) b e) }
{
    let first = list_count(h);
    let same = last_leaps(h, b, e.what);
    let t = ListRow {
        step: e.step as u64,
        calls: e.calls as u64,
    };
    add_list(h, t);
    if same {
        widen_last(h);
        return;
    }
    add_hop(h, hop_to(b, e.what, first));
}

// Whether the last hop goes from block b to the end of number n.
fn last_leaps(h: &Hops, b: usize, n: usize) -> bool
    ensures { result ≡ last_leaps (rows_in h.now).hops b n }
{
    let count = hop_count(h);
    if count == 0 {
        return false;
    }
    let x = hop_at(h, count - 1);
    let ends = ends_at(x, n);
    (x.source == b as u64) & ends
}

fn ends_at(x: HopRow, n: usize) -> bool
    ensures { result ≡ ends_at x n }
{
    if n == LEAVE {
        return x.has_end == 0;
    }
    (x.has_end != 0) & (x.end == n as u64)
}

// A hop from block b to the end of number n, whose one list is list `first`.
fn hop_to(b: usize, n: usize, first: usize) -> HopRow
    ensures { result ≡ hop_to b n first }
{
    if n == LEAVE {
        return HopRow {
            source: b as u64,
            has_end: 0,
            end: 0,
            first: first as u64,
            lists: 1,
        };
    }
    HopRow {
        source: b as u64,
        has_end: 1,
        end: n as u64,
        first: first as u64,
        lists: 1,
    }
}
