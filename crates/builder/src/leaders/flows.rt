// Marks of transfers: a block ends where an instruction leads elsewhere.
ghost use Rattle.std.specs.Prelude.{◌≡◌, ◌+◌, ◌≤◌, ◌<◌, length};
ghost use Rattle.graph.specs.Transfer.{instruction_at, size};
ghost use Rattle.builder.specs.Code.{image_of};
ghost use Rattle.builder.specs.Cursor.{cursor_at, given_for};
ghost use Rattle.builder.specs.Slots.{slot_in};
ghost use Rattle.builder.specs.Marks.{Marked, slot_mark, case_mark, edge_mark, switch_cases, names_mark, lead_mark, case_target, edge_target};

use crate::code::Checked;
use crate::cursor::Cursor;
use crate::flow::{SWITCH, ends_block, flow_under};
use crate::marks::{mark_at, mark_target};
use crate::transfer::{Origin, Slot, slots_of};
use image::record::Instruction;

// Where a block ends at the cursor's instruction: the targets that it names, and the next instruction. The start at its
// end is that one, or else a gap or an overlap marks it.
pub fn mark_lead(
    marks: &mut [bool; 512],
    checked: &Checked<'_>,
    c: Cursor,
    given: Option<usize>,
    i: Instruction,
)
    requires cursor { c ≡ cursor_at (image_of checked.now.code) c.at }
    requires at_in { c.at < size (image_of checked.now.code) }
    requires given { given ≡ given_for (image_of checked.now.code) c.at }
    requires instruction { i ≡ instruction_at (image_of checked.now.code) c.at }
    ensures { Marked (size (image_of checked.now.code)) (lead_mark (image_of checked.now.code) c.at) marks.old marks.new }
{
    match given {
        Some(n) => mark_given(marks, checked, c, n),
        None => mark_flow(marks, checked, c, i),
    }
}

// The targets of n given edges, and the next instruction.
fn mark_given(marks: &mut [bool; 512], checked: &Checked<'_>, c: Cursor, n: usize)
    requires cursor { c ≡ cursor_at (image_of checked.now.code) c.at }
    requires at_in { c.at < size (image_of checked.now.code) }
    requires given { given_for (image_of checked.now.code) c.at ≡ Some n }
    ensures { Marked (size (image_of checked.now.code)) (lead_mark (image_of checked.now.code) c.at) marks.old marks.new }
{
    let at = c.at;
    mark_edges(marks, checked, c.edge, n);
    mark_at(marks, at + 1);
}

// The targets of a flow that ends its block, and the next instruction.
fn mark_flow(marks: &mut [bool; 512], checked: &Checked<'_>, c: Cursor, i: Instruction)
    requires cursor { c ≡ cursor_at (image_of checked.now.code) c.at }
    requires at_in { c.at < size (image_of checked.now.code) }
    requires given { given_for (image_of checked.now.code) c.at ≡ None }
    requires instruction { i ≡ instruction_at (image_of checked.now.code) c.at }
    ensures { Marked (size (image_of checked.now.code)) (lead_mark (image_of checked.now.code) c.at) marks.old marks.new }
{
    let header = checked.code.image.layout.header;
    let at = c.at;
    if ends_block(header.calls, i.flow) {
        mark_names(marks, checked, c.case, i);
        mark_at(marks, at + 1);
    }
}

// The target of the first slot, and of the cases of a Switch, which stand from `first` on.
fn mark_names(marks: &mut [bool; 512], checked: &Checked<'_>, first: usize, i: Instruction)
    requires flow { i.flow ≤ 12 }
    requires cases_in { first + i.cases ≤ length (image_of checked.now.code).cases }
    ensures { Marked (size (image_of checked.now.code)) (names_mark (image_of checked.now.code) first i) marks.old marks.new }
{
    let header = checked.code.image.layout.header;
    let flow = flow_under(header.calls, i.flow);
    let slots = slots_of(flow);
    mark_slot(marks, checked, i, slots.0);
    mark_cases(marks, checked, first, cases_of(flow, i));
}

fn cases_of(flow: u64, i: Instruction) -> usize
    ensures { result ≡ switch_cases flow i }
{
    if flow == SWITCH { i.cases } else { 0 }
}

fn mark_slot(marks: &mut [bool; 512], checked: &Checked<'_>, i: Instruction, slot: Slot)
    ensures { Marked (size (image_of checked.now.code)) (slot_mark (image_of checked.now.code) i (slot_in slot)) marks.old marks.new }
{
    if let Origin::Named = slot.1 {
        mark_target(marks, &checked.code, i.target);
    }
}

fn mark_cases(marks: &mut [bool; 512], checked: &Checked<'_>, first: usize, n: usize)
    requires cases_in { first + n ≤ length (image_of checked.now.code).cases }
    ensures { Marked (size (image_of checked.now.code)) (case_mark (image_of checked.now.code) first n) marks.old marks.new }
{
    for k in 0..n {
        mark_case(marks, checked, first + k);
    }
}

fn mark_case(marks: &mut [bool; 512], checked: &Checked<'_>, k: usize)
    requires k_in { k < length (image_of checked.now.code).cases }
    ensures { Marked (size (image_of checked.now.code)) (case_target (image_of checked.now.code) k) marks.old marks.new }
{
    let case = checked.code.case(k);
    mark_target(marks, &checked.code, case.target);
}

fn mark_edges(marks: &mut [bool; 512], checked: &Checked<'_>, first: usize, n: usize)
    requires edges_in { first + n ≤ length (image_of checked.now.code).edges }
    ensures { Marked (size (image_of checked.now.code)) (edge_mark (image_of checked.now.code) first n) marks.old marks.new }
{
    for k in 0..n {
        mark_edge(marks, checked, first + k);
    }
}

fn mark_edge(marks: &mut [bool; 512], checked: &Checked<'_>, k: usize)
    requires k_in { k < length (image_of checked.now.code).edges }
    ensures { Marked (size (image_of checked.now.code)) (edge_target (image_of checked.now.code) k) marks.old marks.new }
{
    let edge = checked.code.edge(k);
    mark_target(marks, &checked.code, edge.target);
}
