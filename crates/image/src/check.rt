// The checks of one field: 'bad form' where it is not there or holds what it may not.
ghost use Rattle.std.specs.Prelude.{◌≡◌, true, ◌+◌, ◌≤◌, ◌<◌, length, IfOk};
ghost use Rattle.image.specs.Little.{le1};
ghost use Rattle.image.specs.Verdict.{check_of};
ghost use Rattle.image.specs.Form.{field, bad, byte, used4, used8};

use crate::form::{ImageError, allowed};
use crate::little::{byte_in, octet, quad};

// A field of `width` bytes, whatever its value is.
#[tactic(auto, unfolding(crate::specs::Form::field))]
pub fn check_there(s: &[u8], at: usize, width: usize) -> Result<(), ImageError>
    requires low { at < 4294967296 }
    requires narrow { width ≤ 8 }
    ensures check { check_of result ≡ field s.now at width true }
    ensures there { IfOk result (λ _. at + width ≤ length s.now) }
{
    if s.len() < at + width {
        return Err(ImageError::BadForm { offset: s.len() });
    }
    Ok(())
}

// The verdict on a field whose value is good or not.
pub fn check_good(at: usize, good: bool) -> Result<(), ImageError>
    ensures { check_of result ≡ bad at good }
{
    if good {
        Ok(())
    } else {
        Err(ImageError::BadForm { offset: at })
    }
}

// A byte, which it gives, that is at most `most`.
#[tactic(auto, unfolding(crate::specs::Form::field))]
pub fn check_byte(s: &[u8], at: usize, most: u64) -> Result<u64, ImageError>
    requires { at < 4294967296 }
    ensures check { check_of result ≡ byte s.now at most }
    ensures value { IfOk result (λ v. v ≡ le1 s.now at) }
    ensures there { IfOk result (λ _. at + 1 ≤ length s.now) }
{
    check_there(s, at, 1)?;
    let value = byte_in(s, at);
    check_good(at, value <= most)?;
    Ok(value)
}

// Four bytes that are 0 where they are not used.
#[tactic(auto, unfolding(crate::specs::Form::field))]
pub fn check_used4(s: &[u8], at: usize, used: bool) -> Result<(), ImageError>
    requires { at < 4294967296 }
    ensures check { check_of result ≡ used4 s.now at used }
    ensures there { IfOk result (λ _. at + 4 ≤ length s.now) }
{
    check_there(s, at, 4)?;
    check_good(at, allowed(used, quad(s, at)))
}

// Eight bytes that are 0 where they are not used.
#[tactic(auto, unfolding(crate::specs::Form::field))]
pub fn check_used8(s: &[u8], at: usize, used: bool) -> Result<(), ImageError>
    requires { at < 4294967296 }
    ensures check { check_of result ≡ used8 s.now at used }
    ensures there { IfOk result (λ _. at + 8 ≤ length s.now) }
{
    check_there(s, at, 8)?;
    check_good(at, allowed(used, octet(s, at)))
}
