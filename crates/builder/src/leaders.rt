// Leader marks: the instructions that start a block.
//
// 01 'Marks fall on'. Two collectors take the marks by value: the first marks what the code makes lead, and hands them on to the
// second if there is a handler or a route.
mod flows;
mod routes;

ghost use Rattle.std.specs.Prelude.{◌&&◌, ◌||◌, ◌≡◌, ◌+◌, ◌<◌, eqb, ltb, length};
ghost use Rattle.graph.specs.Transfer.{instruction_at, size};
ghost use Rattle.graph.specs.Leaders.{entry_mark, goes_on, gap_mark, protect_mark, handler_mark, route_mark, routes, ends_funclet, is_leader};
ghost use Rattle.builder.specs.Code.{image_of};
ghost use Rattle.builder.specs.Cursor.{cursor_at};
ghost use Rattle.builder.specs.Marks.{Marked, funclet_end, visit_mark};

use crate::code::{Checked, Code};
use crate::cursor::{Cursor, cursor_after, cursor_start, given_at};
use crate::flow::{EXCEPTIONAL, JUMP, RETURN};
use crate::leaders::flows::mark_lead;
use crate::leaders::routes::mark_routes;
use crate::lookup::find;
use crate::marks::{mark_at, mark_if, mark_range, mark_target, mark_target_if};
use crate::ranges::range_check;
use image::record::Instruction;

// The first instruction, and the entry.
fn mark_entry(marks: &mut [bool; 512], checked: &Checked<'_>)
    ensures { Marked (size (image_of checked.now.code)) (entry_mark (image_of checked.now.code)) marks.old marks.new }
{
    let header = checked.code.image.layout.header;
    mark_at(marks, 0);
    mark_target_if(marks, &checked.code, header.has_entry, header.entry);
}

// The marks of all leaders. The entry, and instruction by instruction; then those of handlers and routes, if there are any.
pub fn mark_leaders(mut marks: [bool; 512], checked: &Checked<'_>) -> [bool; 512]
    ensures { Marked (size (image_of checked.now.code)) (is_leader (image_of checked.now.code)) marks result }
{
    mark_entry(&mut marks, checked);
    let n = checked.code.size();
    let routes = checked.code.image.routes().routes().len();
    let routed = routes > 0;
    let mut c = cursor_start();
    for q in 0..n {
        c = mark_visit(&mut marks, checked, c, routed);
    }
    if checked.code.handler_count() == 0 && routes == 0 {
        return marks;
    }
    mark_ranges(marks, checked)
}

// The marks of the instruction at the cursor, and the cursor behind it. `routed` says whether there is any route.
fn mark_visit(marks: &mut [bool; 512], checked: &Checked<'_>, c: Cursor, routed: bool) -> Cursor
    requires cursor { c ≡ cursor_at (image_of checked.now.code) c.at }
    requires at_in { c.at < size (image_of checked.now.code) }
    requires routed { routed ≡ ltb 0 (length (routes (image_of checked.now.code))) }
    ensures next { result ≡ cursor_at (image_of checked.now.code) (c.at + 1) }
    ensures marked { Marked (size (image_of checked.now.code)) (visit_mark (image_of checked.now.code) c.at) marks.old marks.new }
{
    let q = c.at;
    let i = checked.code.instruction(q);
    let given = given_at(&checked.code, c.source, i.address);
    mark_gap(marks, checked, q, i);
    mark_lead(marks, checked, c, given, i);
    mark_if(marks, i.flow == EXCEPTIONAL, q);
    mark_funclet_end(marks, checked, q, i, routed);
    cursor_after(c, i.cases, given)
}

// An instruction after a gap or an overlap, and the start at that end.
fn mark_gap(marks: &mut [bool; 512], checked: &Checked<'_>, q: usize, i: Instruction)
    requires q_in { q < size (image_of checked.now.code) }
    requires instruction { i ≡ instruction_at (image_of checked.now.code) q }
    ensures { Marked (size (image_of checked.now.code)) (gap_mark (image_of checked.now.code) q) marks.old marks.new }
{
    if goes_on(&checked.code, q, i) {
        return;
    }
    mark_at(marks, q + 1);
    mark_target(marks, &checked.code, i.end);
}

// Whether the next instruction starts where the one at q ends.
#[tactic(auto, using(crate::proofs::Sizes::sizes, graph::proofs::TableLaws::entry_address), unfolding(graph::specs::Leaders::goes_on))]
fn goes_on(code: &Code<'_>, q: usize, i: Instruction) -> bool
    requires q_in { q < size (image_of code.now) }
    requires instruction { i ≡ instruction_at (image_of code.now) q }
    ensures { result ≡ goes_on (image_of code.now) q }
{
    q + 1 < code.size() && i.end == code.instruction(q + 1).address
}

// With any route, each Return and each Jump to no start.
fn mark_funclet_end(
    marks: &mut [bool; 512],
    checked: &Checked<'_>,
    q: usize,
    i: Instruction,
    routed: bool,
)
    requires instruction { i ≡ instruction_at (image_of checked.now.code) q }
    requires routed { routed ≡ ltb 0 (length (routes (image_of checked.now.code))) }
    ensures { Marked (size (image_of checked.now.code)) (λ p. funclet_end (image_of checked.now.code) q && eqb p q) marks.old marks.new }
{
    if routed {
        let ends = ends_funclet(&checked.code, q, i);
        mark_if(marks, ends, q);
    }
}

// Whether a funclet may end at q: by a Return, or by a Jump to no start.
#[tactic(auto, unfolding(graph::specs::Leaders::ends_funclet))]
fn ends_funclet(code: &Code<'_>, q: usize, i: Instruction) -> bool
    requires instruction { i ≡ instruction_at (image_of code.now) q }
    ensures { result ≡ ends_funclet (image_of code.now) q }
{
    if i.flow == RETURN {
        return true;
    }
    if i.flow == JUMP {
        return find(code, i.target).is_none();
    }
    false
}

// What handlers and routes protect, and where they are entered.
fn mark_ranges(mut marks: [bool; 512], checked: &Checked<'_>) -> [bool; 512]
    ensures { Marked (size (image_of checked.now.code)) (λ p. handler_mark (image_of checked.now.code) p || route_mark (image_of checked.now.code) p) marks result }
{
    mark_handlers(&mut marks, checked);
    mark_routes(&mut marks, checked);
    marks
}

fn mark_handlers(marks: &mut [bool; 512], checked: &Checked<'_>)
    ensures { Marked (size (image_of checked.now.code)) (handler_mark (image_of checked.now.code)) marks.old marks.new }
{
    let n = checked.code.handler_count();
    for h in 0..n {
        mark_handler(marks, checked, h);
    }
}

fn mark_handler(marks: &mut [bool; 512], checked: &Checked<'_>, h: usize)
    requires h_in { h < length (image_of checked.now.code).handlers }
    ensures { Marked (size (image_of checked.now.code)) (protect_mark (image_of checked.now.code) h) marks.old marks.new }
{
    let handler = checked.code.handler(h);
    let range = range_check(&checked.code, handler.start, handler.end);
    mark_range(marks, range);
    mark_target(marks, &checked.code, handler.entry);
}
