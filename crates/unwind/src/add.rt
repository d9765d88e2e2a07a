// `add_unwind_routes`: the edges and copies that routes want in a graph, and the hops. All is decided before the first store.
pub mod frames;
mod most;
mod run;
mod store;

ghost use Rattle.std.specs.Prelude.{◌≡◌, true};
ghost use Rattle.image.specs.Image.{routes_in};
ghost use Rattle.image.specs.Accepted.{AcceptedRoutes};
ghost use Rattle.image.specs.There.{RoutesThere};
ghost use Rattle.graph.specs.Lent.{held_of};
ghost use Rattle.graph.specs.WellFormed.{well_formed};
ghost use Rattle.addition.specs.Add.{add_routes};
ghost use Rattle.unwind.specs.Answers.{add_answer, AddLeaves, Graphed, Spells, Adds};

use crate::add::frames::add_checked;
use crate::checks::check_routes;
use crate::hops::Hops;
use graph::error::AddressBuildError;
use graph::rule::{built_count, is_graph};
use graph::store::Graph;
use image::read::read_routes;
use image::section::RouteLayout;

// To what any lent graph holds, and routes that any bytes hold.
pub fn add_unwind_routes(g: &mut Graph, s: &[u8], h: &mut Hops) -> Result<(), AddressBuildError>
    ensures answer { add_answer s.now g.new h.new result ≡ add_routes (held_of g.old) s.now }
    ensures leaves { AddLeaves g.old g.new h.old h.new result }
    ensures spells { Spells s.now g.old g.new h.new result }
    ensures graphed { Graphed g.new result }
{
    if !is_graph(g) {
        return Err(AddressBuildError::NoGraph);
    }
    let y = read_routes(s)?;
    add_read(g, s, y, h)
}

// To a graph, and routes that were read.
fn add_read(g: &mut Graph, s: &[u8], y: RouteLayout, h: &mut Hops) -> Result<(), AddressBuildError>
    requires graph { well_formed (held_of g.old) ≡ true }
    requires accepted { AcceptedRoutes (routes_in s.now y) }
    requires there { RoutesThere s.now y }
    ensures { Adds (routes_in s.now y) g.old g.new h.old h.new result }
{
    let built = built_count(g);
    check_routes(g, built, s, y)?;
    add_checked(g, built, s, y, h)
}
