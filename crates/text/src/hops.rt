// The lines of hops, one for each call list. Whatever the words are, a buffer of 10,816 bytes holds each of them: of a list
// no more than 512 tags are told.
ghost use Rattle.std.specs.Prelude.{map, ◌≡◌, ◌+◌, ◌*◌, ◌≤◌, ◌<◌, length, take};
ghost use Rattle.image.specs.Image.{RouteImage, routes_in};
ghost use Rattle.unwind.specs.Nodes.{step_in, tags_in};
ghost use Rattle.unwind.specs.HopWords.{end_from, tags_from, hops_in};
ghost use Rattle.text.specs.declared.field.Field.TheVariants.{Number};
ghost use Rattle.text.specs.Line.{fields};
ghost use Rattle.text.specs.Put.{Puts, Told};
ghost use Rattle.text.specs.Chart.{end_field, tag_fields};
ghost use Rattle.text.specs.HopText.{hop_in, told_at};

use crate::field::Field;
use crate::put::{put_end, put_field, put_word};
use image::access::step_at;
use image::section::RouteLayout;
use unwind::hops::{HopRow, Hops, ListRow, hop_at, hop_count, list_at, list_count};

pub type HopText = [u8; 10816];

// The most tags that are told of a list.
const TAGS: u64 = 512;

// How many lists hop i has. Past the last hop there is none.
#[tactic(auto, using(crate::proofs::HopTextLaws::counted))]
pub fn lists_of(h: &Hops, i: usize) -> usize
    ensures { (m : RouteImage) → result ≡ length (hop_in (hops_in m h.now) i).calls }
{
    if hop_count(h) <= i {
        return 0;
    }
    let x = hop_at(h, i);
    let all = list_count(h) as u64;
    x.lists.min(all.saturating_sub(x.first)) as usize
}

// List k of hop i, over the routes that were read. Past the last list there is no line.
pub fn hop_line(h: &Hops, s: &[u8], y: RouteLayout, i: usize, k: usize, out: &mut HopText) -> usize
    ensures { Told (told_at (hops_in (routes_in s.now y) h.now) i k) out.old out.new result }
{
    if lists_of(h, i) <= k {
        return 0;
    }
    let x = hop_at(h, i);
    let t = list_at(h, x.first as usize + k);
    let at = put_word(out, b"hop");
    let at = put_field(out, at, Field::Number(x.source));
    let at = put_field(out, at, end_field(x));
    let at = put_tags(out, at, s, y, t);
    put_end(out, at)
}

// Where a hop goes: to a block, or out of the function.
#[tactic(auto, unfolding(unwind::specs::HopWords::end_from, crate::specs::Chart::end_field))]
fn end_field(x: HopRow) -> Field
    ensures { result ≡ end_field (end_from x) }
{
    if x.has_end == 0 {
        Field::Leave
    } else {
        Field::Number(x.end)
    }
}

// The tags of a list, or that there are none.
#[tactic(auto, using(crate::proofs::HopTextLaws::listed))]
fn put_tags(out: &mut [u8], at: usize, s: &[u8], y: RouteLayout, t: ListRow) -> usize
    requires { at + 10752 ≤ length out.old }
    ensures put { Puts (fields (tag_fields (take 512 (tags_from (routes_in s.now y) t)))) out.old at out.new result }
    ensures near { result ≤ at + 10752 }
{
    let n = t.calls.min(TAGS) as usize;
    if n == 0 {
        return put_field(out, at, Field::Absent);
    }
    put_each(out, at, s, y, t.step, n)
}

// The tags of the n steps from `step` on: steps are read from the bytes, so there is no slice to go over.
fn put_each(out: &mut [u8], at: usize, s: &[u8], y: RouteLayout, step: u64, n: usize) -> usize
    requires few { n ≤ 512 }
    requires room { at + 21 * n ≤ length out.old }
    ensures put { Puts (fields (map Number (tags_in (routes_in s.now y) step n))) out.old at out.new result }
    ensures near { result ≤ at + 21 * n }
{
    let mut next = at;
    for j in 0..n {
        let tag = tag_at(s, y, step, j);
        next = put_field(out, next, Field::Number(tag));
    }
    next
}

// The tag of step `step + j`, 0 past the last one.
#[tactic(auto, using(crate::proofs::HopTextLaws::no_step))]
fn tag_at(s: &[u8], y: RouteLayout, step: u64, j: usize) -> u64
    requires { j < 512 }
    ensures { result ≡ (step_in (routes_in s.now y) (step + j)).value }
{
    let steps = y.steps;
    if steps.count as u64 <= step {
        return 0;
    }
    step_at(s, steps, step as usize + j).value
}
