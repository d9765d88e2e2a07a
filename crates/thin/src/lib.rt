// A graph and its hops as structs behind a reference, where the Rust's Emitter stood: each function lends what they hold to the
// store's, and promises what that one does.
#![tactic(auto)]

ghost use Rattle.std.specs.Prelude.{◌≡◌};
ghost use Rattle.graph.specs.Graph.{edge};
ghost use Rattle.graph.specs.Lent.{held_of};
ghost use Rattle.graph.specs.Stored.{with_edge, Stored};
ghost use Rattle.addition.specs.Add.{add_routes};
ghost use Rattle.unwind.specs.Answers.{add_answer, AddLeaves, Graphed, Spells};
ghost use Rattle.unwind.specs.HopWords.{hop_at, rows_in, with_hop_if_room, HopsStored};

use graph::error::AddressBuildError;
use graph::record::Edge;
use unwind::hops::{HopRow, Hops};

#[derive(Drop)]
pub struct Graph {
    pub rows: graph::store::Graph,
}

#[derive(Drop)]
pub struct HopList {
    pub words: Hops,
}

// One edge more, behind the others; where there is no room, nothing changes.
pub fn add_edge(g: &mut Graph, e: Edge)
    ensures { Stored g.old.rows g.new.rows (with_edge (held_of g.old.rows) e) }
{
    graph::store::edges::add_edge(&mut g.rows, e)
}

// Edge i, and zeros past the last.
pub fn edge_at(g: &Graph, i: usize) -> Edge
    ensures { result ≡ edge (held_of g.now.rows).graph i }
{
    graph::store::edges::edge_at(&g.rows, i)
}

// One hop more, behind the others; where there is no room, nothing changes.
pub fn add_hop(h: &mut HopList, x: HopRow)
    ensures { HopsStored h.old.words h.new.words (with_hop_if_room (rows_in h.old.words) x) }
{
    unwind::hops::add_hop_if_room(&mut h.words, x)
}

// Hop i, and zeros past the last.
pub fn hop_at(h: &HopList, i: usize) -> HopRow
    ensures { result ≡ hop_at (rows_in h.now.words) i }
{
    unwind::hops::hop_or_zeros(&h.words, i)
}

// To what any lent graph holds, and routes that any bytes hold: the edges and copies that they want, and their hops.
pub fn add_unwind_routes(g: &mut Graph, s: &[u8], h: &mut HopList) -> Result<(), AddressBuildError>
    ensures answer { add_answer s.now g.new.rows h.new.words result ≡ add_routes (held_of g.old.rows) s.now }
    ensures leaves { AddLeaves g.old.rows g.new.rows h.old.words h.new.words result }
    ensures spells { Spells s.now g.old.rows g.new.rows h.new.words result }
    ensures graphed { Graphed g.new.rows result }
{
    unwind::add::add_unwind_routes(&mut g.rows, s, &mut h.words)
}
