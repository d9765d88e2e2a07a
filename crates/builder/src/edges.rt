// The normal edges of a built graph: those of each block's end.
ghost use Rattle.std.specs.Prelude.{true, false, ◌||◌, cond, [], ◌∷◌, ◌≡◌, suc, ◌+◌, ◌<◌, ◌≤◌, eqb, length, get_or};
ghost use Rattle.image.specs.Image.{Image};
ghost use Rattle.image.specs.Record.{edge_from};
ghost use Rattle.graph.specs.Table.{is_start};
ghost use Rattle.graph.specs.Flow.{Flow, From, falls_through, flow_under};
ghost use Rattle.graph.specs.Transfer.{table_of, size, instruction_at, address_at, transfer_at, slot_count, is_given, given_at};
ghost use Rattle.graph.specs.Edges.{transfer_edges, transfer_unresolved, given_edge, edges_at, unresolved_at, normal_edges, unresolved_of};
ghost use Rattle.graph.specs.Adding.{Added};
ghost use Rattle.builder.specs.Code.{image_of};
ghost use Rattle.builder.specs.Roles.{role_of};
ghost use Rattle.builder.specs.Slots.{slot_in, slot_at, transfer_in};
ghost use Rattle.builder.specs.Cursor.{Sourced, cursor_at};
ghost use Rattle.builder.specs.Marks.{Leading};
ghost use Rattle.builder.specs.Emit.{Visiting, Resolves, edge_between, unresolved_from, slot_edges, slot_unresolved};

use crate::code::{Code, Numbered};
use crate::cursor::{Cursor, Visit, cursor_after, cursor_start, given_at};
use crate::flow::{SWITCH, flow_under};
use crate::lookup::find;
use crate::roles::{falls_through, kind_of, unresolved_role};
use crate::transfer::{
    Origin, Slot, Transfer, case_transfer, has_target, is_empty, slot_transfer, slots_of,
};
use graph::record::{Edge, UnresolvedTransfer};
use graph::store::Graph;
use graph::store::edges::add_edge;
use graph::store::unresolved::add_unresolved;
use image::record::Instruction;

const GIVEN: u64 = 11;

// The normal edges of each block's end, and the records of transfers that lead nowhere.
pub fn add_normal_edges(g: &mut Graph, numbered: &Numbered<'_>, marks: &[bool; 512])
    requires leading { Leading (image_of numbered.now.code) marks.now }
    ensures { Added g.old g.new (normal_edges (image_of numbered.now.code)) (unresolved_of (image_of numbered.now.code)) [] }
{
    let n = numbered.code.size();
    let mut c = cursor_start();
    for p in 0..n {
        let i = numbered.code.instruction(p);
        let given = given_at(&numbered.code, c.source, i.address);
        let next = cursor_after(c, i.cases, given);
        let visit = Visit {
            instruction: i,
            given,
            next,
        };
        emit_if(g, numbered, c, visit, is_terminator(marks, n, p));
        c = next;
    }
}

// Whether the instruction at p is the last of its block: none follows, or the next one leads.
pub fn is_terminator(marks: &[bool; 512], n: usize, p: usize) -> bool
    requires p_in { p < n }
    requires n_most { n ≤ 512 }
    ensures { result ≡ (eqb (p + 1) n || get_or marks.now (p + 1) false) }
{
    p + 1 == n || marks[p + 1]
}

// What the instruction at a cursor gives, where it ends its block.
fn emit_if(g: &mut Graph, numbered: &Numbered<'_>, c: Cursor, visit: Visit, ends: bool)
    requires visiting { Visiting (image_of numbered.now.code) c visit }
    ensures { Added g.old g.new (cond ends (edges_at (image_of numbered.now.code) c.at) []) (cond ends (unresolved_at (image_of numbered.now.code) c.at) []) [] }
{
    if ends {
        emit(g, numbered, c, visit);
    }
}

fn emit(g: &mut Graph, numbered: &Numbered<'_>, c: Cursor, visit: Visit)
    requires visiting { Visiting (image_of numbered.now.code) c visit }
    ensures { Added g.old g.new (edges_at (image_of numbered.now.code) c.at) (unresolved_at (image_of numbered.now.code) c.at) [] }
{
    match visit.given {
        Some(n) => add_given_edges(g, numbered, c, n),
        None => add_transfers(g, numbered, c, visit.instruction),
    }
}

// The edges that are given for the instruction at a cursor.
fn add_given_edges(g: &mut Graph, numbered: &Numbered<'_>, c: Cursor, n: usize)
    requires cursor { c ≡ cursor_at (image_of numbered.now.code) c.at }
    requires at_in { c.at < size (image_of numbered.now.code) }
    requires is_given { is_given (image_of numbered.now.code) c.at ≡ true }
    requires count { length (given_at (image_of numbered.now.code) c.at) ≡ n }
    ensures { Added g.old g.new (edges_at (image_of numbered.now.code) c.at) [] [] }
{
    let p = c.at;
    let first = c.edge;
    for k in 0..n {
        add_given(g, numbered, p, first + k);
    }
}

// Given edge e, of the instruction at p. Its target starts an instruction (8).
fn add_given(g: &mut Graph, numbered: &Numbered<'_>, p: usize, e: usize)
    requires p_in { p < size (image_of numbered.now.code) }
    requires target { is_start (table_of (image_of numbered.now.code)) (get_or (image_of numbered.now.code).edges e (edge_from [] 0)).target ≡ true }
    requires e_in { e < length (image_of numbered.now.code).edges }
    ensures { Added g.old g.new (given_edge (image_of numbered.now.code) p (get_or (image_of numbered.now.code).edges e (edge_from [] 0)) ∷ []) [] [] }
{
    let edge = numbered.code.edge(e);
    let target = edge.target;
    let Some(to) = find(&numbered.code, target) else {
        return;
    };
    let record = Edge {
        source: block_of(numbered.blocks, p),
        target: block_of(numbered.blocks, to),
        kind: edge.kind,
        role: GIVEN,
        number: edge.payload,
        key: 0,
        source_address: 0,
        target_address: 0,
    };
    add_edge(g, record);
}

// The transfers of the instruction at a cursor, slot by slot.
fn add_transfers(g: &mut Graph, numbered: &Numbered<'_>, c: Cursor, i: Instruction)
    requires cursor { c ≡ cursor_at (image_of numbered.now.code) c.at }
    requires at_in { c.at < size (image_of numbered.now.code) }
    requires instruction { i ≡ instruction_at (image_of numbered.now.code) c.at }
    ensures { Added g.old g.new (slot_edges (image_of numbered.now.code) c.at (slot_count (image_of numbered.now.code) c.at)) (slot_unresolved (image_of numbered.now.code) c.at (slot_count (image_of numbered.now.code) c.at)) [] }
{
    let flow = flow_under(numbered.code.image.layout.header.calls, i.flow);
    let slots = slots_of(flow);
    let n = slot_end(flow, i.cases, slots.1);
    let p = c.at;
    let source = i.address;
    let mut slot = slots.0;
    for k in 0..n {
        let x = transfer_of(&numbered.code, c, i, flow, slot, k);
        add_transfer(g, numbered, p, source, x);
        slot = slots.1;
    }
}

// Where the transfers of an instruction of this flow end: behind a default and its cases, behind two, or behind one where the
// second slot is empty.
fn slot_end(flow: u64, cases: usize, second: Slot) -> usize
    requires { cases ≤ 512 }
    ensures { result ≡ cond (eqb flow Flow.switch) (suc cases) (cond (eqb (slot_in second).from From.nowhere) 1 2) }
{
    if flow == SWITCH {
        return cases + 1;
    }
    match second.1 {
        Origin::Nowhere => 1,
        Origin::Computed | Origin::Named | Origin::End => 2,
    }
}

// Transfer k of the instruction at a cursor: that of its slot, or, behind the first, a case of a Switch.
fn transfer_of(
    code: &Code<'_>,
    c: Cursor,
    i: Instruction,
    flow: u64,
    slot: Slot,
    k: usize,
) -> Transfer
    requires sourced { Sourced (image_of code.now) }
    requires cursor { c ≡ cursor_at (image_of code.now) c.at }
    requires at_in { c.at < size (image_of code.now) }
    requires instruction { i ≡ instruction_at (image_of code.now) c.at }
    requires flow { flow ≡ flow_under (image_of code.now).header.calls i.flow }
    requires slot { slot_in slot ≡ slot_at flow k }
    requires k_in { k < slot_count (image_of code.now) c.at }
    ensures { transfer_in result ≡ transfer_at (image_of code.now) c.at k }
{
    if k > 0 && flow == SWITCH {
        let behind = k - 1;
        let case = code.case(c.case + behind);
        return case_transfer(case, behind);
    }
    slot_transfer(i, slot)
}

// The edge of a transfer of the instruction at p, whose address is `source`, or its unresolved record.
fn add_transfer(g: &mut Graph, numbered: &Numbered<'_>, p: usize, source: u64, x: Transfer)
    requires p_in { p < size (image_of numbered.now.code) }
    requires source { source ≡ address_at (image_of numbered.now.code) p }
    ensures { Added g.old g.new (transfer_edges (image_of numbered.now.code) p (transfer_in x)) (transfer_unresolved (image_of numbered.now.code) p (transfer_in x)) [] }
{
    match resolve(&numbered.code, x) {
        Some(to) => add_edge(
            g,
            edge_between(
                block_of(numbered.blocks, p),
                block_of(numbered.blocks, to),
                source,
                x,
            ),
        ),
        None => report(g, source, x),
    }
}

// Where a transfer leads: the position of its target, if it has one that starts an instruction.
pub fn resolve(code: &Code<'_>, x: Transfer) -> Option<usize>
    ensures { (m : Image) → table_of m ≡ table_of (image_of code.now) → Resolves m (transfer_in x) result }
{
    if has_target(x) {
        return find(code, x.target);
    }
    None
}

pub fn edge_between(source: u64, target: u64, address: u64, x: Transfer) -> Edge
    ensures { result ≡ edge_between source target address (transfer_in x) }
{
    Edge {
        source,
        target,
        kind: kind_of(x.role) as u64,
        role: x.role as u64,
        number: x.number,
        key: x.key,
        source_address: address,
        target_address: x.target,
    }
}

// The record of a transfer that leads nowhere; what falls through has none.
#[tactic(auto, using(graph::proofs::AddingLaws::unresolved_added, graph::proofs::AddingLaws::added_none))]
fn report(g: &mut Graph, source: u64, x: Transfer)
    ensures { Added g.old g.new [] (cond (eqb (transfer_in x).from From.nowhere || falls_through (role_of x.role)) [] (unresolved_from source (transfer_in x) ∷ [])) [] }
{
    if is_empty(x) || falls_through(x.role) {
        return;
    }
    let record = UnresolvedTransfer {
        source,
        target: x.target,
        role: unresolved_role(x.role, has_target(x)) as u64,
        case_index: x.number,
    };
    add_unresolved(g, record);
}

// The block of position p, by the numbers of the positions.
pub fn block_of(blocks: &[u16], p: usize) -> u64
    requires { p < length blocks.now }
    ensures { result ≡ get_or blocks.now p 0 }
{
    blocks[p] as u64
}
