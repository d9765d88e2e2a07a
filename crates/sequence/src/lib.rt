// A sequence with its own routes: the graph of an image and, in modes 1 and 2, what the addition of the routes in it gives. It
// is a build and an addition, one after the other; but the image is read once, and neither 21 is asked of a graph just built
// nor 10 to 12, 15 and 17 of its own routes.
#![tactic(auto)]

ghost use Rattle.std.specs.Prelude.{◌≡◌};
ghost use Rattle.image.specs.Verdict.{refusal_of as form_refusal};
ghost use Rattle.graph.specs.Error.{refusal_of};
ghost use Rattle.graph.specs.declared.error.AddressBuildError.{AddressBuildError};
ghost use Rattle.sequence.specs.declared.SequenceError.TheVariants.{Refused};
ghost use Rattle.sequence.specs.Sequences.{Gives};

use builder::build::build_read;
use graph::error::AddressBuildError;
use graph::store::Graph;
use graph::store::blocks::block_count;
use image::form::ImageError;
use image::little::byte_at;
use image::read::read_image;
use image::whole::Image;
use unwind::add::frames::add_checked;
use unwind::hops::{Hops, empty_hops};

// Why there is no graph with its routes: the graph is stored, but its routes are refused; or nothing is.
#[derive(Clone, Copy, Debug, PartialEq, Eq)]
pub enum SequenceError {
    Unrouted(AddressBuildError),
    Refused(AddressBuildError),
}

impl From<AddressBuildError> for SequenceError {
    ghost from_gives = { λ e r. r ≡ Refused e };

    fn from(e: AddressBuildError) -> SequenceError {
        SequenceError::Refused(e)
    }
}

impl From<ImageError> for SequenceError {
    ghost from_gives = { λ e r. (x : AddressBuildError) × (r ≡ Refused x) × (refusal_of x ≡ form_refusal e) };

    fn from(e: ImageError) -> SequenceError {
        SequenceError::Refused(AddressBuildError::from(e))
    }
}

// Of any bytes: the graph with its routes, and their hops.
pub fn build_sequence(s: &[u8], g: &mut Graph, h: &mut Hops) -> Result<(), SequenceError>
    ensures { Gives s.now g.old g.new h.old h.new result }
{
    let layout = read_image(s)?;
    let image = Image { bytes: s, layout };
    build_read(&image, g)?;
    if byte_at(s, 1) == 0 {
        empty_hops(h);
        return Ok(());
    }
    let built = block_count(g);
    add_checked(g, built, s, layout.routes, h).map_err(SequenceError::Unrouted)
}
