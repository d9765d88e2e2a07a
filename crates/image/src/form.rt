// Why a file is refused, and the form of its first twelve bytes.
ghost use Rattle.std.specs.Prelude.{◌≡◌, ◌||◌, ◌≤◌, eqb, length, IfOk};
ghost use Rattle.image.specs.Little.{le1};
ghost use Rattle.image.specs.Verdict.{check_of};
ghost use Rattle.image.specs.Form.{field, header_form};

use crate::check::{check_byte, check_good, check_there, check_used8};
use crate::little::byte_in;

// Why a file is refused: document 01's numbers 1 and 2, each with its byte offset.
#[derive(Clone, Copy, Debug, PartialEq, Eq)]
pub enum ImageError {
    BadForm { offset: usize },
    OverLimit { offset: usize },
}

// Whether a value is used, or else 0.
pub fn allowed(used: bool, value: u64) -> bool
    ensures { result ≡ used || eqb value 0 }
{
    used || value == 0
}

// The first twelve bytes.
pub fn header_form(s: &[u8]) -> Result<(), ImageError>
    ensures check { check_of result ≡ header_form s.now }
    ensures there { IfOk result (λ _. 12 ≤ length s.now) }
{
    check_version(s)?;
    check_byte(s, 1, 2)?;
    check_byte(s, 2, 1)?;
    let flag = check_byte(s, 3, 1)?;
    check_used8(s, 4, flag == 1)
}

// 'Byte 0 is 1'.
#[tactic(auto, unfolding(crate::specs::Form::field))]
fn check_version(s: &[u8]) -> Result<(), ImageError>
    ensures { check_of result ≡ field s.now 0 1 (eqb (le1 s.now 0) 1) }
{
    check_there(s, 0, 1)?;
    check_good(0, byte_in(s, 0) == 1)
}
