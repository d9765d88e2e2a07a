// Edges.
ghost use Rattle.std.specs.Prelude.{◌≡◌, ◌<◌, length};
ghost use Rattle.graph.specs.Graph.{edge};
ghost use Rattle.graph.specs.Lent.{held_of};
ghost use Rattle.graph.specs.Stored.{with_edge, Stored};

use crate::record::Edge;
use crate::store::{Graph, rows, sized};

pub const MOST_EDGES: usize = 4096;

#[tactic(auto, unfolding(crate::specs::Lent::held_of), using(crate::proofs::RecordLaws::rows_read))]
pub fn edges(g: &Graph) -> &[Edge]
    ensures { result.now ≡ (held_of g.now).graph.edges }
{
    sized(g);
    &g.edges[..rows(g.counts.edges, MOST_EDGES)]
}

// How many edges there are.
pub fn edge_count(g: &Graph) -> usize
    ensures { result ≡ length (held_of g.now).graph.edges }
{
    edges(g).len()
}

// Number i of them, and zeros past the last.
pub fn edge_at(g: &Graph, i: usize) -> Edge
    ensures { result ≡ edge (held_of g.now).graph i }
{
    edges(g).get(i).copied().unwrap_or_default()
}

// Number i, one of those that there are. Nothing is tested.
pub fn edge_in(g: &Graph, i: usize) -> Edge
    requires { i < length (held_of g.now).graph.edges }
    ensures { result ≡ edge (held_of g.now).graph i }
{
    edges(g)[i]
}

// One more, behind the others; where there is no room, nothing changes.
pub fn add_edge(g: &mut Graph, r: Edge)
    ensures { Stored g.old g.new (with_edge (held_of g.old) r) }
{
    let n = g.counts.edges as usize;
    if n < MOST_EDGES {
        g.counts.edges += 1;
        g.edges[n] = r;
    }
}
