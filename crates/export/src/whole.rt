// A sequence with its own routes: whether its graph was built, and a refusal in document 01's numbers, number 0 where there is none.
ghost use Rattle.std.specs.Prelude.{◌≡◌, ◌≤◌, length, drop};
ghost use Rattle.text.specs.Chart.{route_bytes};
ghost use Rattle.sequence.specs.Sequences.{sequence_from};
ghost use Rattle.export.specs.Sequences.{told_whole, told_sequence, SequenceLeaves};

use crate::build::told;
use graph::store::Graph;
use sequence::{SequenceError, build_sequence};
use text::refusal::Numbers;
use text::routes::routes_at;
use unwind::hops::Hops;

#[repr(C)]
#[derive(Clone, Copy, Debug, PartialEq, Eq, Hash)]
pub struct SequenceAnswer {
    pub built: u64,
    pub refusal: Numbers,
}

impl From<Result<(), SequenceError>> for SequenceAnswer {
    ghost from_gives = { λ r a. a ≡ told_whole r };

    fn from(r: Result<(), SequenceError>) -> SequenceAnswer {
        match r {
            Ok(()) => SequenceAnswer {
                built: 1,
                refusal: told(Ok(())),
            },
            Err(SequenceError::Unrouted(e)) => SequenceAnswer {
                built: 1,
                refusal: told(Err(e)),
            },
            Err(SequenceError::Refused(e)) => SequenceAnswer {
                built: 0,
                refusal: told(Err(e)),
            },
        }
    }
}

#[tactic(auto, using(crate::proofs::AnswerLaws::wholes))]
#[unsafe(no_mangle)]
pub extern "C" fn foldzine_sequence(s: &[u8], g: &mut Graph, h: &mut Hops) -> SequenceAnswer
    ensures answer { result ≡ told_sequence (sequence_from s.now) }
    ensures leaves { SequenceLeaves (sequence_from s.now) s.now g.old g.new h.old h.new }
{
    SequenceAnswer::from(build_sequence(s, g, h))
}

// Where the routes stand in a sequence image: the bytes from there on are a route image.
#[unsafe(no_mangle)]
pub extern "C" fn foldzine_routes_at(s: &[u8]) -> usize
    ensures within { result ≤ length s.now }
    ensures bytes { drop result s.now ≡ route_bytes s.now }
{
    routes_at(s)
}
