// Protected ranges: their positions in the table, and the handlers that name them (10 to 13).
ghost use Rattle.std.specs.Prelude.{◌≡◌, ◌<◌, length};
ghost use Rattle.graph.specs.Error.{check_of};
ghost use Rattle.graph.specs.Table.{range_check};
ghost use Rattle.graph.specs.Transfer.{table_of};
ghost use Rattle.graph.specs.Build.{handler_check};
ghost use Rattle.builder.specs.Code.{image_of};
ghost use Rattle.builder.specs.Ranges.{Ranges, handlers_check};

use crate::code::Code;
use crate::lookup::find;
use graph::error::AddressBuildError;

// The positions of a range's instructions, from `first` up to `past`.
#[derive(Clone, Copy)]
pub struct Positions {
    pub first: usize,
    pub past: usize,
}

// What is wrong with a range (10, 11, 12).
#[derive(Clone, Copy)]
pub enum RangeError {
    Empty,
    NoStart,
    NoEnd,
}

// The range from `start` to `end`, in the table. It is asked for at six places and kept so short that the
// compiler copies it into each of them.
#[tactic(auto, unfolding(graph::specs::Table::range_check))]
pub fn range_check(code: &Code<'_>, start: u64, end: u64) -> Result<Positions, RangeError>
    ensures { Ranges (table_of (image_of code.now)) start end result }
{
    if end <= start {
        return Err(RangeError::Empty);
    }
    let Some(first) = find(code, start) else {
        return Err(RangeError::NoStart);
    };
    if end == code.end {
        let past = code.size();
        return Ok(Positions { first, past });
    }
    let Some(past) = find(code, end) else {
        return Err(RangeError::NoEnd);
    };
    Ok(Positions { first, past })
}

// The refusal of a range.
pub fn check_range(code: &Code<'_>, start: u64, end: u64) -> Result<(), AddressBuildError>
    ensures { check_of result ≡ range_check (table_of (image_of code.now)) start end }
{
    match range_check(code, start, end) {
        Ok(_) => Ok(()),
        Err(RangeError::Empty) => Err(AddressBuildError::EmptyProtectedRange { start, end }),
        Err(RangeError::NoStart) => Err(AddressBuildError::MissingRangeStart { address: start }),
        Err(RangeError::NoEnd) => Err(AddressBuildError::MissingRangeEnd { address: end }),
    }
}

// The first refusal among those of the handlers.
#[tactic(auto, using(crate::proofs::Row::rows))]
pub fn check_handlers(code: &Code<'_>) -> Result<(), AddressBuildError>
    ensures { check_of result ≡ handlers_check (image_of code.now) }
{
    let n = code.handler_count();
    for h in 0..n {
        check_handler(code, h)?;
    }
    Ok(())
}

#[tactic(auto, unfolding(graph::specs::Build::handler_check, graph::specs::Leaders::handler_at))]
fn check_handler(code: &Code<'_>, h: usize) -> Result<(), AddressBuildError>
    requires h_in { h < length (image_of code.now).handlers }
    ensures { check_of result ≡ handler_check (image_of code.now) h }
{
    let handler = code.handler(h);
    check_range(code, handler.start, handler.end)?;
    let entry = handler.entry;
    let Some(_) = find(code, entry) else {
        return Err(AddressBuildError::MissingHandlerEntry { address: entry });
    };
    Ok(())
}
