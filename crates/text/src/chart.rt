// The chart, line by line: the lines of a graph by their number, the line of what is reached, and that of a refusal.
ghost use Rattle.std.specs.Prelude.{[], ◌≡◌, length, get_or};
ghost use Rattle.graph.specs.Lent.{held_of};
ghost use Rattle.graph.specs.Error.{refusal_of};
ghost use Rattle.text.specs.Put.{Told};
ghost use Rattle.text.specs.Chart.{graph_lines, reached_line, refused_line};

use crate::field::Field;
use crate::lines::{
    block_line, built_line, call_line, edge_line, handler_line, region_line, unresolved_line,
};
use crate::put::put_line;
use crate::refusal::Numbers;
use graph::error::AddressBuildError;
use graph::store::Graph;
use graph::store::blocks::block_count;
use graph::store::calls::call_count;
use graph::store::edges::edge_count;
use graph::store::handlers::handler_count;
use graph::store::regions::region_count;
use graph::store::unresolved::unresolved_count;

// How many lines a graph has.
#[tactic(auto, using(crate::proofs::LineLaws::lines_length, crate::proofs::LineLaws::records_few))]
pub fn line_count(g: &Graph) -> usize
    ensures { result ≡ length (graph_lines (held_of g.now).graph) }
{
    1 + block_count(g)
        + edge_count(g)
        + region_count(g)
        + handler_count(g)
        + unresolved_count(g)
        + call_count(g)
}

// Line k of a graph: what is left of k behind the lines of a kind is a line from the next kind on. Past the last there is none.
#[tactic(auto, using(crate::proofs::LineLaws::lines))]
pub fn line_at(g: &Graph, k: usize, out: &mut [u8; 256]) -> usize
    ensures { Told (get_or (graph_lines (held_of g.now).graph) k []) out.old out.new result }
{
    let Some(b) = k.checked_sub(1) else {
        return built_line(g, out);
    };
    let Some(e) = b.checked_sub(block_count(g)) else {
        return block_line(g, b, out);
    };
    let Some(r) = e.checked_sub(edge_count(g)) else {
        return edge_line(g, e, out);
    };
    let Some(h) = r.checked_sub(region_count(g)) else {
        return region_line(g, r, out);
    };
    let Some(u) = h.checked_sub(handler_count(g)) else {
        return handler_line(g, h, out);
    };
    let Some(c) = u.checked_sub(unresolved_count(g)) else {
        return unresolved_line(g, u, out);
    };
    if c < call_count(g) {
        return call_line(g, c, out);
    }
    0
}

// How many blocks are reached.
#[tactic(auto, unfolding(crate::specs::Line::bytes, crate::specs::Chart::reached_line))]
pub fn reached_line(n: usize, out: &mut [u8; 256]) -> usize
    ensures { Told (reached_line n) out.old out.new result }
{
    put_line(out, b"reached", &[Field::Number(n as u64)])
}

// A refusal by its three numbers.
#[tactic(auto, unfolding(crate::specs::Line::bytes, crate::specs::Chart::refused_line))]
pub fn refused_line(e: AddressBuildError, out: &mut [u8; 256]) -> usize
    ensures { Told (refused_line (refusal_of e)) out.old out.new result }
{
    let r = Numbers::from(e);
    let fields = [
        Field::Number(r.number),
        Field::Number(r.first),
        Field::Number(r.second),
    ];
    put_line(out, b"refused", &fields)
}
