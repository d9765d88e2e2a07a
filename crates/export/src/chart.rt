// The text of a chart, line by line, in a buffer that the caller lends. Whether what is lent is a graph (21) is asked once, with
// the count of its lines.
ghost use Rattle.std.specs.Prelude.{◌≡◌, [], length, get_or};
ghost use Rattle.image.specs.Image.{RouteImage};
ghost use Rattle.graph.specs.Lent.{held_of};
ghost use Rattle.image.specs.Read.{read_routes};
ghost use Rattle.unwind.specs.HopWords.{hops_in};
ghost use Rattle.unwind.specs.Answers.{image_of};
ghost use Rattle.text.specs.Chart.{graph_lines};
ghost use Rattle.text.specs.Put.{Told};
ghost use Rattle.text.specs.HopText.{hop_in, told_at};
ghost use Rattle.export.specs.Count.{told_lines};

use crate::count::{Count, counted};
use graph::rule::is_graph;
use graph::store::Graph;
use text::chart::{line_at, line_count};
use text::hops::{HopText, hop_line, lists_of};
use text::routes::route_layout;
use unwind::hops::Hops;

// How many lines a graph has up to its hops, or 21.
#[unsafe(no_mangle)]
pub extern "C" fn foldzine_line_count(g: &Graph) -> Count
    ensures { result ≡ told_lines (held_of g.now) }
{
    counted(is_graph(g), line_count(g))
}

// Line k of a graph; past the last there is none.
#[unsafe(no_mangle)]
pub extern "C" fn foldzine_line(g: &Graph, k: usize, out: &mut [u8; 256]) -> usize
    ensures { Told (get_or (graph_lines (held_of g.now).graph) k []) out.old out.new result }
{
    line_at(g, k, out)
}

// How many lines hop i has: one for each of its call lists.
#[unsafe(no_mangle)]
pub extern "C" fn foldzine_hop_lines(h: &Hops, i: usize) -> usize
    ensures { (m : RouteImage) → result ≡ length (hop_in (hops_in m h.now) i).calls }
{
    lists_of(h, i)
}

// The line of list k of hop i, whose calls are steps of the routes that the bytes hold; past the last list there is none.
#[unsafe(no_mangle)]
pub extern "C" fn foldzine_hop_line(
    h: &Hops,
    s: &[u8],
    i: usize,
    k: usize,
    out: &mut HopText,
) -> usize
    ensures { Told (told_at (hops_in (image_of (read_routes s.now)) h.now) i k) out.old out.new result }
{
    hop_line(h, s, route_layout(s), i, k, out)
}
