// The hops of an addition as words that a caller lends. No contract above this module says where a word stands.
ghost use Rattle.std.specs.Prelude.{[], ◌≡◌, ◌+◌, ◌-◌, ◌≤◌, ◌<◌, min, length, get_or};
ghost use Rattle.std.proofs.lemmas.List.Edits.{sets};
ghost use Rattle.unwind.specs.HopWords.{list_row, hop_at, rows_in, with_hop, with_hop_if_room, with_run, with_wider, HopsStored, HopsEmptied};

pub type Hops = [u64; 18440];

// A source, an end block or none, and where the lists of the hop stand: the five words of a row, as the C interface has them.
#[derive(Clone, Copy)]
pub struct HopRow {
    pub source: u64,
    pub has_end: u64,
    pub end: u64,
    pub first: u64,
    pub lists: u64,
}

// A call list: consecutive steps of the route image.
#[derive(Clone, Copy)]
pub struct ListRow {
    pub step: u64,
    pub calls: u64,
}

const HOPS: usize = 0;

const LISTS: usize = 1;

const HOP_BASE: usize = 8;

const LIST_BASE: usize = 10248;

pub const HOP_MOST: usize = 2048;

pub const LIST_MOST: usize = 4096;

// No hop and no list.
pub fn empty_hops(h: &mut Hops)
    ensures { HopsEmptied h.old h.new }
{
    whole(h);
    h[HOPS] = 0;
    h[LISTS] = 0;
}

// How many hops there are.
pub fn hop_count(h: &Hops) -> usize
    ensures { (result ≡ length (rows_in h.now).hops) × (result ≤ 2048) }
{
    rows_in(h, HOPS, HOP_MOST)
}

// How many lists there are.
pub fn list_count(h: &Hops) -> usize
    ensures { (result ≡ length (rows_in h.now).lists) × (result ≤ 4096) }
{
    rows_in(h, LISTS, LIST_MOST)
}

// One more hop, behind the others.
pub fn add_hop(h: &mut Hops, x: HopRow)
    requires { length (rows_in h.old).hops < 2048 }
    ensures { HopsStored h.old h.new (with_hop (rows_in h.old) x) }
{
    let n = hop_count(h);
    let row = [x.source, x.has_end, x.end, x.first, x.lists];
    put_row(h, HOP_BASE + 5 * n, &row);
    h[HOPS] = (n + 1) as u64;
}

// One more hop, behind the others; where there is no room, nothing changes.
pub fn add_hop_if_room(h: &mut Hops, x: HopRow)
    ensures { HopsStored h.old h.new (with_hop_if_room (rows_in h.old) x) }
{
    if hop_count(h) < HOP_MOST {
        add_hop(h, x);
    }
}

// One more list, behind the others.
pub fn add_list(h: &mut Hops, t: ListRow)
    requires { length (rows_in h.old).lists < 4096 }
    ensures { HopsStored h.old h.new (with_run (rows_in h.old) t) }
{
    let n = list_count(h);
    let row = [t.step, t.calls];
    put_row(h, LIST_BASE + 2 * n, &row);
    h[LISTS] = (n + 1) as u64;
}

// Hop i, one of those that there are.
pub fn hop_at(h: &Hops, i: usize) -> HopRow
    requires { i < length (rows_in h.now).hops }
    ensures { result ≡ hop_at (rows_in h.now) i }
{
    hop_count(h);
    let at = HOP_BASE + 5 * i;
    HopRow {
        source: h[at],
        has_end: h[at + 1],
        end: h[at + 2],
        first: h[at + 3],
        lists: h[at + 4],
    }
}

// Hop i, and zeros past the last.
pub fn hop_or_zeros(h: &Hops, i: usize) -> HopRow
    ensures { result ≡ hop_at (rows_in h.now) i }
{
    if i < hop_count(h) {
        return hop_at(h, i);
    }
    HopRow {
        source: 0,
        has_end: 0,
        end: 0,
        first: 0,
        lists: 0,
    }
}

// List k, one of those that there are.
pub fn list_at(h: &Hops, k: usize) -> ListRow
    requires { k < length (rows_in h.now).lists }
    ensures { result ≡ get_or (rows_in h.now).lists k (list_row []) }
{
    list_count(h);
    let at = LIST_BASE + 2 * k;
    ListRow {
        step: h[at],
        calls: h[at + 1],
    }
}

// The last hop has a list more.
pub fn widen_last(h: &mut Hops)
    requires { (0 < length (rows_in h.old).hops) × ((hop_at (rows_in h.old) (length (rows_in h.old).hops - 1)).lists < 65536) }
    ensures { HopsStored h.old h.new (with_wider (rows_in h.old)) }
{
    whole(h);
    let n = hop_count(h);
    let lists = hop_at(h, n - 1).lists;
    h[HOP_BASE + 5 * (n - 1) + 4] = lists + 1;
}

// What the type says and a list does not: how many words there are. A caller learns it by the call.
fn whole(h: &Hops)
    ensures { length h.now ≡ 18440 }
{
    let _all: &[u64] = h;
}

// How many rows a section has: as many as its count says, and no more than its limit.
fn rows_in(h: &Hops, count: usize, most: usize) -> usize
    requires { count < 18440 }
    ensures { result ≡ min (get_or h.now count 0) most }
{
    (h[count] as usize).min(most)
}

// The words of w, stored from `at` on.
fn put_row(h: &mut Hops, at: usize, w: &[u64])
    requires { at + length w.now ≤ 18440 }
    ensures { (length h.old ≡ 18440) × (h.new ≡ sets h.old at w.now) }
{
    whole(h);
    h[at..at + w.len()].copy_from_slice(w);
}
