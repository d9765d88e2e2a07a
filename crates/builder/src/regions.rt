// Regions and handler records, from the drafts: `add_regions`.
ghost use Rattle.std.specs.Prelude.{cond, true, [], ◌∷◌, ◌≡◌, ℕ, ◌+◌, ◌-◌, ◌≤◌, ◌<◌, length, get_or, take};
ghost use Rattle.std.specs.Option.{option_to_list};
ghost use Rattle.image.specs.Refusal.{clear};
ghost use Rattle.image.specs.Image.{Image};
ghost use Rattle.graph.specs.Graph.{held};
ghost use Rattle.graph.specs.Lent.{held_of};
ghost use Rattle.graph.specs.Stored.{Stored};
ghost use Rattle.graph.specs.Fold.{count};
ghost use Rattle.graph.specs.Table.{is_start};
ghost use Rattle.graph.specs.Transfer.{table_of};
ghost use Rattle.graph.specs.Blocks.{block_of, block_at};
ghost use Rattle.graph.specs.Build.{handler_check};
ghost use Rattle.graph.specs.Edges.{range_first, range_size};
ghost use Rattle.graph.specs.Regions.{same_range, drafts, draft, contains, smaller, parent_below, set_below, region_at, regions_of, region_in, handler_record, handlers_of};
ghost use Rattle.builder.specs.Code.{image_of};
ghost use Rattle.builder.specs.Drafts.{Extents, Counted, Drafted, Whole, with_regions, with_handlers};

use crate::code::Numbered;
use crate::drafts::{drafts_of, read_ranges, same_range, span};
use crate::edges::block_of;
use crate::lookup::find;
use crate::ranges::range_check;
use graph::blockset::put_in;
use graph::record::{HandlerRecord, Region};
use graph::store::Graph;
use graph::store::handlers::add_handler;
use graph::store::regions::add_region;

// The regions and the handlers of the image, in a graph that has none.
pub fn add_regions(g: &mut Graph, numbered: &Numbered<'_>)
    requires whole { Whole g.old }
    requires no_regions { (held_of g.old).graph.regions ≡ [] }
    requires no_handlers { (held_of g.old).graph.handlers ≡ [] }
    ensures { Stored g.old g.new (held (with_handlers (with_regions (held_of g.old).graph (regions_of (image_of numbered.now.code))) (handlers_of (image_of numbered.now.code)))) }
{
    let n = numbered.code.handler_count();
    if n == 0 {
        return;
    }
    let mut starts = [0u64; 32];
    let mut ends = [0u64; 32];
    read_ranges(&mut starts, &mut ends, &numbered.code);
    let mut list = [0usize; 32];
    let count = drafts_of(&mut list, &starts, &ends, n);
    store_regions(g, numbered, &starts, &ends, &list, count);
    store_handlers(g, numbered, &starts, &ends, &list, count);
}

fn store_regions(
    g: &mut Graph,
    numbered: &Numbered<'_>,
    starts: &[u64; 32],
    ends: &[u64; 32],
    list: &[usize; 32],
    count: usize,
)
    requires extents { Extents (image_of numbered.now.code) starts.now ends.now }
    requires drafted { Drafted list.now count (drafts (image_of numbered.now.code)) }
    requires whole { Whole g.old }
    requires no_regions { (held_of g.old).graph.regions ≡ [] }
    ensures { Stored g.old g.new (held (with_regions (held_of g.old).graph (regions_of (image_of numbered.now.code)))) }
{
    for r in 0..count {
        add_region(g, region_of(numbered, starts, ends, list, count, r));
    }
}

fn store_handlers(
    g: &mut Graph,
    numbered: &Numbered<'_>,
    starts: &[u64; 32],
    ends: &[u64; 32],
    list: &[usize; 32],
    count: usize,
)
    requires extents { Extents (image_of numbered.now.code) starts.now ends.now }
    requires drafted { Drafted list.now count (drafts (image_of numbered.now.code)) }
    requires whole { Whole g.old }
    requires no_handlers { (held_of g.old).graph.handlers ≡ [] }
    ensures { Stored g.old g.new (held (with_handlers (held_of g.old).graph (handlers_of (image_of numbered.now.code)))) }
{
    let n = numbered.code.handler_count();
    for h in 0..n {
        add_handler(g, handler_record(numbered, starts, ends, list, count, h));
    }
}

fn region_of(
    numbered: &Numbered<'_>,
    starts: &[u64; 32],
    ends: &[u64; 32],
    list: &[usize; 32],
    count: usize,
    r: usize,
) -> Region
    requires extents { Extents (image_of numbered.now.code) starts.now ends.now }
    requires drafted { Drafted list.now count (drafts (image_of numbered.now.code)) }
    requires r_in { r < count }
    ensures { result ≡ region_at (image_of numbered.now.code) r }
{
    let h = list[r];
    let start = starts[h];
    let end = ends[h];
    let parent = parent_of(starts, ends, list, count, r);
    let n = numbered.code.handler_count();
    Region {
        has_parent: u64::from(parent.is_some()),
        parent: parent.unwrap_or(0) as u64,
        start,
        end,
        handlers: same_ranges(starts, ends, h, n),
        protected: protected_by(numbered, h),
    }
}

// The smallest region that contains region r, the earlier of equal spans.
fn parent_of(
    starts: &[u64; 32],
    ends: &[u64; 32],
    list: &[usize; 32],
    count: usize,
    r: usize,
) -> Option<usize>
    requires counted { Counted list.now count }
    requires r_in { r < count }
    ensures { (m : Image) → Extents m starts.now ends.now → Drafted list.now count (drafts m) → option_to_list result ≡ parent_below m r (length (drafts m)) }
{
    let own = list[r];
    let mut parent = None;
    for k in 0..count {
        if contains(starts, ends, list[k], own) {
            parent = nearer(parent, starts, ends, list, k);
        }
    }
    parent
}

// The nearer of the parent so far and region k.
fn nearer(
    p: Option<usize>,
    starts: &[u64; 32],
    ends: &[u64; 32],
    list: &[usize; 32],
    k: usize,
) -> Option<usize>
    requires counted { Counted list.now (k + 1) }
    requires parent { get_or (option_to_list p) 0 0 ≤ k }
    ensures within { get_or (option_to_list result) 0 0 ≤ k }
    ensures nearer { (m : Image) → Extents m starts.now ends.now → ((i : ℕ) → i ≤ k → get_or list.now i 0 ≡ draft m i) → option_to_list result ≡ cond (smaller m (option_to_list p) k) (k ∷ []) (option_to_list p) }
{
    let Some(j) = p else {
        return Some(k);
    };
    if span(starts, ends, list[k]) < span(starts, ends, list[j]) {
        return Some(k);
    }
    p
}

// Whether b's range lies in a's and is another.
fn contains(starts: &[u64; 32], ends: &[u64; 32], a: usize, b: usize) -> bool
    requires a_in { a < 32 }
    requires b_in { b < 32 }
    ensures { (m : Image) → Extents m starts.now ends.now → result ≡ contains m a b }
{
    if same_range(starts, ends, a, b) {
        return false;
    }
    starts[a] <= starts[b] && ends[b] <= ends[a]
}

// How many of the first n handlers have the range of h.
fn same_ranges(starts: &[u64; 32], ends: &[u64; 32], h: usize, n: usize) -> u64
    requires h_in { h < 32 }
    requires n_most { n ≤ 32 }
    ensures { (m : Image) → Extents m starts.now ends.now → result ≡ count (λ g. same_range m g h) n }
{
    let mut same: u64 = 0;
    for g in 0..n {
        if same_range(starts, ends, g, h) {
            same += 1;
        }
    }
    same
}

// The blocks that handler h protects.
fn protected_by(numbered: &Numbered<'_>, h: usize) -> [u64; 16]
    requires h_in { h < length (image_of numbered.now.code).handlers }
    requires checked { handler_check (image_of numbered.now.code) h ≡ clear }
    ensures { result ≡ set_below (λ i. block_of (image_of numbered.now.code) (range_first (image_of numbered.now.code) h + i)) (range_size (image_of numbered.now.code) h) }
{
    let own = numbered.code.handler(h);
    let found = range_check(&numbered.code, own.start, own.end);
    let Ok(range) = found else {
        return [0; 16];
    };
    blocks_between(numbered.blocks, range.first, range.past)
}

// The blocks of the instructions from `first` up to `past`.
fn blocks_between(blocks: &[u16], first: usize, past: usize) -> [u64; 16]
    requires rises { first ≤ past }
    requires past_in { past ≤ length blocks.now }
    ensures { result ≡ set_below (λ i. get_or blocks.now (first + i) 0) (past - first) }
{
    let mut set = [0u64; 16];
    for &block in &blocks[first..past] {
        put_in(&mut set, usize::from(block));
    }
    set
}

fn handler_record(
    numbered: &Numbered<'_>,
    starts: &[u64; 32],
    ends: &[u64; 32],
    list: &[usize; 32],
    count: usize,
    h: usize,
) -> HandlerRecord
    requires checked { handler_check (image_of numbered.now.code) h ≡ clear }
    requires h_below { h < 32 }
    requires h_in { h < length (image_of numbered.now.code).handlers }
    requires extents { Extents (image_of numbered.now.code) starts.now ends.now }
    requires drafted { Drafted list.now count (drafts (image_of numbered.now.code)) }
    ensures { result ≡ handler_record (image_of numbered.now.code) h }
{
    let own = numbered.code.handler(h);
    HandlerRecord {
        region: region_in(starts, ends, list, count, h),
        place: same_ranges(starts, ends, h, h),
        entry: block_at(numbered, own.entry),
        kind: own.kind,
        filter: own.filter,
    }
}

// The region of handler h.
fn region_in(
    starts: &[u64; 32],
    ends: &[u64; 32],
    list: &[usize; 32],
    count: usize,
    h: usize,
) -> u64
    requires counted { Counted list.now count }
    requires h_in { h < 32 }
    ensures { (m : Image) → Extents m starts.now ends.now → result ≡ region_in m (take count list.now) h }
{
    for k in 0..count {
        if same_range(starts, ends, list[k], h) {
            return k as u64;
        }
    }
    count as u64
}

// The block of the instruction that starts at a.
pub fn block_at(numbered: &Numbered<'_>, a: u64) -> u64
    requires start { is_start (table_of (image_of numbered.now.code)) a ≡ true }
    ensures { result ≡ block_at (image_of numbered.now.code) a }
{
    let Some(p) = find(&numbered.code, a) else {
        return 0;
    };
    block_of(numbered.blocks, p)
}
