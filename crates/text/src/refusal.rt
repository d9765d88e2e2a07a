// Document 01's three numbers for each error, as C is handed them.
ghost use Rattle.std.specs.Prelude.{◌≡◌};
ghost use Rattle.image.specs.Refusal.{refusal};
ghost use Rattle.graph.specs.Error.{refusal_of};

use graph::error::AddressBuildError;

#[repr(C)]
#[derive(Clone, Copy, Debug, PartialEq, Eq, Hash)]
pub struct Numbers {
    pub number: u64,
    pub first: u64,
    pub second: u64,
}

impl From<AddressBuildError> for Numbers {
    ghost from_gives = { λ e r. refusal r.number r.first r.second ≡ refusal_of e };

    fn from(e: AddressBuildError) -> Numbers {
        match e {
            AddressBuildError::BadForm { offset } => three(1, offset as u64, 0),
            AddressBuildError::OverLimit { offset } => three(2, offset as u64, 0),
            AddressBuildError::AddressOverflow { address } => three(3, address, 0),
            AddressBuildError::ZeroSizeInstruction { address } => three(4, address, 0),
            AddressBuildError::UnorderedInstruction { previous, address } => three(
                5, previous, address,
            ),
            AddressBuildError::MissingEntry { address } => three(6, address, 0),
            AddressBuildError::MissingGivenSource { address } => three(7, address, 0),
            AddressBuildError::MissingGivenTarget { source, target } => three(8, source, target),
            AddressBuildError::TransferWithoutGivenEdges { address } => three(9, address, 0),
            AddressBuildError::EmptyProtectedRange { start, end } => three(10, start, end),
            AddressBuildError::MissingRangeStart { address } => three(11, address, 0),
            AddressBuildError::MissingRangeEnd { address } => three(12, address, 0),
            AddressBuildError::MissingHandlerEntry { address } => three(13, address, 0),
            AddressBuildError::MissingRouteEntry { address } => three(14, address, 0),
            AddressBuildError::ResumeAfterFunclet { route } => three(15, route as u64, 0),
            AddressBuildError::MissingContinuation { source, target } => three(16, source, target),
            AddressBuildError::RouteAddressNotBlockStart { address } => three(17, address, 0),
            AddressBuildError::TooManyBlocks => three(18, 0, 0),
            AddressBuildError::TooManyEdges => three(19, 0, 0),
            AddressBuildError::TooManyHops => three(20, 0, 0),
            AddressBuildError::NoGraph => three(21, 0, 0),
        }
    }
}

fn three(number: u64, first: u64, second: u64) -> Numbers
    ensures { refusal result.number result.first result.second ≡ refusal number first second }
{
    Numbers {
        number,
        first,
        second,
    }
}
