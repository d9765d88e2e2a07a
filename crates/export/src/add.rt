// The addition of unwind routes: a refusal in document 01's numbers, and number 0 where there is none.
ghost use Rattle.std.specs.Prelude.{◌≡◌};
ghost use Rattle.graph.specs.Lent.{held_of};
ghost use Rattle.addition.specs.Add.{add_routes};
ghost use Rattle.export.specs.Additions.{told_addition, AdditionLeaves};

use crate::build::told;
use graph::store::Graph;
use text::refusal::Numbers;
use unwind::add::add_unwind_routes;
use unwind::hops::Hops;

#[tactic(auto, using(crate::proofs::AnswerLaws::adds))]
#[unsafe(no_mangle)]
pub extern "C" fn foldzine_add_routes(g: &mut Graph, s: &[u8], h: &mut Hops) -> Numbers
    ensures answer { result ≡ told_addition (add_routes (held_of g.old) s.now) }
    ensures leaves { AdditionLeaves (add_routes (held_of g.old) s.now) s.now g.old g.new h.old h.new }
{
    told(add_unwind_routes(g, s, h))
}
