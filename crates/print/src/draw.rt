// The graph and the hops that a chart shows: those of a sequence with its own routes.
ghost use Rattle.std.specs.Prelude.{◌≡◌};
ghost use Rattle.text.specs.Chart.{chart_from};
ghost use Rattle.print.specs.Drawn.{drawn_lines};

use graph::error::AddressBuildError;
use graph::store::Graph;
use sequence::{SequenceError, build_sequence};
use unwind::hops::Hops;

pub fn draw(s: &[u8], g: &mut Graph, h: &mut Hops) -> Result<(), AddressBuildError>
    ensures { drawn_lines s.now g.new h.new result ≡ chart_from s.now }
{
    match build_sequence(s, g, h) {
        Ok(()) => Ok(()),
        Err(SequenceError::Unrouted(e)) => Err(e),
        Err(SequenceError::Refused(e)) => Err(e),
    }
}
