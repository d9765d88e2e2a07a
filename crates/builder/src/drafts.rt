// Drafts of regions: one for each protected range, the wider ones first. The ranges of the handlers are lent as two arrays.
ghost use Rattle.std.specs.Prelude.{◌≡◌, ◌+◌, ◌≤◌, ◌<◌, length, take, replicate};
ghost use Rattle.image.specs.Image.{Image};
ghost use Rattle.graph.specs.Regions.{same_range, is_draft, span, place, drafts_below};
ghost use Rattle.builder.specs.Code.{image_of};
ghost use Rattle.builder.specs.Drafts.{Extents, Counted, Drafted, put};

use crate::code::Code;

// The ranges of all handlers, into arrays of zeros.
pub fn read_ranges(starts: &mut [u64; 32], ends: &mut [u64; 32], code: &Code<'_>)
    requires no_starts { starts.old ≡ replicate 32 0 }
    requires no_ends { ends.old ≡ replicate 32 0 }
    requires few { length (image_of code.now).handlers ≤ 32 }
    ensures { Extents (image_of code.now) starts.new ends.new }
{
    let n = code.handler_count();
    for h in 0..n {
        let own = code.handler(h);
        starts[h] = own.start;
        ends[h] = own.end;
    }
}

// The drafts of the first n handlers, into a list of none: how many there are.
pub fn drafts_of(list: &mut [usize; 32], starts: &[u64; 32], ends: &[u64; 32], n: usize) -> usize
    requires counted { Counted list.old 0 }
    requires n_most { n ≤ 32 }
    ensures counted { Counted list.new result }
    ensures drafts { (m : Image) → Extents m starts.now ends.now → take result list.new ≡ drafts_below m n }
{
    let mut count = 0;
    for h in 0..n {
        count = add_draft(list, count, starts, ends, h);
    }
    count
}

// To those of the handlers before h, handler h if it is one: how many there are then.
fn add_draft(
    list: &mut [usize; 32],
    count: usize,
    starts: &[u64; 32],
    ends: &[u64; 32],
    h: usize,
) -> usize
    requires counted { Counted list.old count }
    requires count_most { count ≤ h }
    requires h_in { h < 32 }
    ensures counted { Counted list.new result }
    ensures most { result ≤ h + 1 }
    ensures drafts { (m : Image) → Extents m starts.now ends.now → take count list.old ≡ drafts_below m h → take result list.new ≡ drafts_below m (h + 1) }
{
    if is_draft(starts, ends, h) {
        let j = place_of(starts, ends, list, count, h);
        insert(list, count, j, h);
        return count + 1;
    }
    count
}

// Whether no handler before it has its range.
fn is_draft(starts: &[u64; 32], ends: &[u64; 32], h: usize) -> bool
    requires { h < 32 }
    ensures { (m : Image) → Extents m starts.now ends.now → result ≡ is_draft m h }
{
    for g in 0..h {
        if same_range(starts, ends, g, h) {
            return false;
        }
    }
    true
}

// Where handler h goes: behind the drafts of no lesser span.
fn place_of(
    starts: &[u64; 32],
    ends: &[u64; 32],
    list: &[usize; 32],
    count: usize,
    h: usize,
) -> usize
    requires counted { Counted list.now count }
    requires h_in { h < 32 }
    ensures within { result ≤ count }
    ensures place { (m : Image) → Extents m starts.now ends.now → place m h (take count list.now) ≡ put result h (take count list.now) }
{
    let own = span(starts, ends, h);
    for j in 0..count {
        if span(starts, ends, list[j]) < own {
            return j;
        }
    }
    count
}

// The list with h in place j: those from there on move up by one.
fn insert(list: &mut [usize; 32], count: usize, j: usize, h: usize)
    requires counted { Counted list.old count }
    requires j_in { j ≤ count }
    requires room { count < 32 }
    requires h_in { h < 32 }
    ensures { Drafted list.new (count + 1) (put j h (take count list.old)) }
{
    let mut next = h;
    for k in j..count {
        let moved = list[k];
        list[k] = next;
        next = moved;
    }
    list[count] = next;
}

// Whether handlers a and b have one range.
pub fn same_range(starts: &[u64; 32], ends: &[u64; 32], a: usize, b: usize) -> bool
    requires a_in { a < 32 }
    requires b_in { b < 32 }
    ensures { (m : Image) → Extents m starts.now ends.now → result ≡ same_range m a b }
{
    starts[a] == starts[b] && ends[a] == ends[b]
}

// How many addresses its range has.
pub fn span(starts: &[u64; 32], ends: &[u64; 32], h: usize) -> u64
    requires { h < 32 }
    ensures { (m : Image) → Extents m starts.now ends.now → result ≡ span m h }
{
    ends[h].saturating_sub(starts[h])
}
