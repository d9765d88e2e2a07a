// Why a build or an addition is refused: the Rust's `AddressBuildError` and what document 01 adds, by its numbers.
ghost use Rattle.std.specs.Prelude.{◌≡◌};
ghost use Rattle.image.specs.Verdict.{refusal_of as form_refusal};
ghost use Rattle.graph.specs.Error.{refusal_of};

use image::form::ImageError;

#[derive(Clone, Copy, Debug, PartialEq, Eq)]
pub enum AddressBuildError {
    BadForm { offset: usize },
    OverLimit { offset: usize },
    AddressOverflow { address: u64 },
    ZeroSizeInstruction { address: u64 },
    UnorderedInstruction { previous: u64, address: u64 },
    MissingEntry { address: u64 },
    MissingGivenSource { address: u64 },
    MissingGivenTarget { source: u64, target: u64 },
    TransferWithoutGivenEdges { address: u64 },
    EmptyProtectedRange { start: u64, end: u64 },
    MissingRangeStart { address: u64 },
    MissingRangeEnd { address: u64 },
    MissingHandlerEntry { address: u64 },
    MissingRouteEntry { address: u64 },
    ResumeAfterFunclet { route: usize },
    MissingContinuation { source: u64, target: u64 },
    RouteAddressNotBlockStart { address: u64 },
    TooManyBlocks,
    TooManyEdges,
    TooManyHops,
    NoGraph,
}

// 1 or 2 of a reader.
impl From<ImageError> for AddressBuildError {
    ghost from_gives = { λ e r. refusal_of r ≡ form_refusal e };

    fn from(e: ImageError) -> AddressBuildError {
        match e {
            ImageError::BadForm { offset } => AddressBuildError::BadForm { offset },
            ImageError::OverLimit { offset } => AddressBuildError::OverLimit { offset },
        }
    }
}
