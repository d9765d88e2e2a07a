// The lines of a graph's records. A buffer of 256 bytes holds each of them, whatever the rows of the graph are.
ghost use Rattle.std.specs.Prelude.{◌≡◌};
ghost use Rattle.graph.specs.Lent.{held_of};
ghost use Rattle.text.specs.Put.{Told};
ghost use Rattle.text.specs.Chart.{built_line, block_line, edge_line, region_line, handler_line, computes, unresolved_line, call_line};

use crate::field::{Field, present_if};
use crate::put::put_line;
use graph::store::Graph;
use graph::store::blocks::{block_at, block_count};
use graph::store::calls::{call_at, call_count};
use graph::store::edges::{edge_at, edge_count};
use graph::store::handlers::handler_at;
use graph::store::regions::{region_at, region_count};
use graph::store::table::table_at;
use graph::store::unresolved::{unresolved_at, unresolved_count};

// Kinds and roles stand in a graph's rows as numbers, and any number may: so they stay numbers here.
//
// The kind of a handler that has a filter block.
const FILTER: u64 = 4;

// Unresolved roles: those of computed transfers, and the one with a case.
const INDIRECT: u64 = 0;

const INDIRECT_CALL: u64 = 1;

const CONDITIONAL_INDIRECT: u64 = 3;

const SWITCH_CASE: u64 = 6;

const TRAP: u64 = 9;

// How many records there are.
#[tactic(auto, unfolding(crate::specs::Line::bytes, crate::specs::Chart::built_line))]
pub fn built_line(g: &Graph, out: &mut [u8; 256]) -> usize
    ensures { Told (built_line (held_of g.now).graph) out.old out.new result }
{
    let counts = [
        Field::Number(block_count(g) as u64),
        Field::Number(edge_count(g) as u64),
        Field::Number(region_count(g) as u64),
        Field::Number(unresolved_count(g) as u64),
        Field::Number(call_count(g) as u64),
    ];
    put_line(out, b"built", &counts)
}

// Block k. An empty one has no first address.
#[tactic(auto, unfolding(crate::specs::Line::bytes, crate::specs::Chart::block_line))]
pub fn block_line(g: &Graph, k: usize, out: &mut [u8; 256]) -> usize
    ensures { Told (block_line (held_of g.now).graph k) out.old out.new result }
{
    let b = block_at(g, k);
    let first = table_at(g, b.first as usize);
    let fields = [
        Field::Number(k as u64),
        present_if(b.count != 0, first.address),
        Field::Number(b.count),
    ];
    put_line(out, b"block", &fields)
}

// Edge k.
#[tactic(auto, unfolding(crate::specs::Line::bytes, crate::specs::Chart::edge_line))]
pub fn edge_line(g: &Graph, k: usize, out: &mut [u8; 256]) -> usize
    ensures { Told (edge_line (held_of g.now).graph k) out.old out.new result }
{
    let e = edge_at(g, k);
    let fields = [
        Field::Number(k as u64),
        Field::Number(e.source),
        Field::Number(e.target),
        Field::Number(e.kind),
        Field::Number(e.role),
        Field::Number(e.number),
    ];
    put_line(out, b"edge", &fields)
}

// Region k.
#[tactic(auto, unfolding(crate::specs::Line::bytes, crate::specs::Chart::region_line))]
pub fn region_line(g: &Graph, k: usize, out: &mut [u8; 256]) -> usize
    ensures { Told (region_line (held_of g.now).graph k) out.old out.new result }
{
    let r = region_at(g, k);
    let fields = [
        Field::Number(k as u64),
        present_if(r.has_parent != 0, r.parent),
        Field::Number(r.start),
        Field::Number(r.end),
    ];
    put_line(out, b"region", &fields)
}

// The handler with input index k.
#[tactic(auto, unfolding(crate::specs::Line::bytes, crate::specs::Chart::handler_line))]
pub fn handler_line(g: &Graph, k: usize, out: &mut [u8; 256]) -> usize
    ensures { Told (handler_line (held_of g.now).graph k) out.old out.new result }
{
    let h = handler_at(g, k);
    let fields = [
        Field::Number(k as u64),
        Field::Number(h.region),
        Field::Number(h.place),
        Field::Number(h.entry),
        Field::Number(h.kind),
        present_if(h.kind == FILTER, h.filter),
    ];
    put_line(out, b"handler", &fields)
}

// Unresolved record k.
#[tactic(auto, unfolding(crate::specs::Line::bytes, crate::specs::Chart::unresolved_line))]
pub fn unresolved_line(g: &Graph, k: usize, out: &mut [u8; 256]) -> usize
    ensures { Told (unresolved_line (held_of g.now).graph k) out.old out.new result }
{
    let u = unresolved_at(g, k);
    let fields = [
        Field::Number(u.source),
        present_if(!is_computed(u.role), u.target),
        Field::Number(u.role),
        present_if(u.role == SWITCH_CASE, u.case_index),
    ];
    put_line(out, b"unresolved", &fields)
}

// Flattened call k.
#[tactic(auto, unfolding(crate::specs::Line::bytes, crate::specs::Chart::call_line))]
pub fn call_line(g: &Graph, k: usize, out: &mut [u8; 256]) -> usize
    ensures { Told (call_line (held_of g.now).graph k) out.old out.new result }
{
    let c = call_at(g, k);
    let fields = [
        Field::Number(c.source),
        present_if(c.has_target != 0, c.target),
    ];
    put_line(out, b"call", &fields)
}

// Whether an unresolved role is that of a computed transfer, which has no target.
#[tactic(auto, unfolding(crate::specs::Chart::computes))]
fn is_computed(role: u64) -> bool
    ensures { result ≡ computes role }
{
    matches!(role, INDIRECT | INDIRECT_CALL | CONDITIONAL_INDIRECT | TRAP)
}
