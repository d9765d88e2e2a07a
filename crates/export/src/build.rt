// The build of a graph, and its reached blocks: a refusal in document 01's numbers, and number 0 where there is none.
ghost use Rattle.std.specs.Prelude.{◌≡◌};
ghost use Rattle.graph.specs.Lent.{held_of};
ghost use Rattle.graph.specs.Build.{build_from};
ghost use Rattle.export.specs.Answers.{told, told_build, Leaves};
ghost use Rattle.export.specs.Count.{told_reached};

use crate::count::{Count, counted};
use builder::build::build;
use graph::error::AddressBuildError;
use graph::reach::reached;
use graph::store::Graph;
use text::refusal::Numbers;

// The number where nothing is refused.
const NOTHING: u64 = 0;

pub fn told(r: Result<(), AddressBuildError>) -> Numbers
    ensures { result ≡ told r }
{
    match r {
        Ok(()) => Numbers {
            number: NOTHING,
            first: 0,
            second: 0,
        },
        Err(e) => Numbers::from(e),
    }
}

#[tactic(auto, using(crate::proofs::AnswerLaws::builds))]
#[unsafe(no_mangle)]
pub extern "C" fn foldzine_build(s: &[u8], g: &mut Graph) -> Numbers
    ensures answer { result ≡ told_build (build_from s.now) }
    ensures leaves { Leaves (build_from s.now) g.old g.new }
{
    told(build(s, g))
}

#[tactic(auto, using(crate::proofs::AnswerLaws::reached_told))]
#[unsafe(no_mangle)]
pub extern "C" fn foldzine_reached(g: &Graph) -> Count
    ensures { result ≡ told_reached (held_of g.now) }
{
    let r = reached(g);
    counted(r.found.is_ok(), r.count)
}
