// Bytes put into a buffer one behind the other. Each function answers the place behind what it put.
//
// Not by `write!`: it promises its text only where it is `Ok`, and no clause says when that is.
ghost use Rattle.std.specs.Prelude.{[], ◌∷◌, ◌+◌, ◌*◌, ◌≤◌, ◌<◌, length};
ghost use Rattle.text.specs.Line.{decimal, field, fields, line};
ghost use Rattle.text.specs.Put.{Puts, Told};

use crate::field::Field;

// A whole line: the word that it begins with, its fields, the newline.
pub fn put_line(out: &mut [u8; 256], word: &[u8], more: &[Field]) -> usize
    requires room { length word.now + 21 * length more.now < 256 }
    ensures { Told (line word.now more.now) out.old out.new result }
{
    let at = put_word(out, word);
    let at = put_fields(out, at, more);
    put_end(out, at)
}

// The word that a line begins with.
pub fn put_word(out: &mut [u8], word: &[u8]) -> usize
    requires { length word.now ≤ length out.old }
    ensures { Puts word.now out.old 0 out.new result }
{
    put_bytes(out, 0, word)
}

// Fields one behind the other.
pub fn put_fields(out: &mut [u8], at: usize, more: &[Field]) -> usize
    requires room { at + 21 * length more.now ≤ length out.old }
    ensures put { Puts (fields more.now) out.old at out.new result }
    ensures near { result ≤ at + 21 * length more.now }
{
    let mut next = at;
    for &f in more {
        next = put_field(out, next, f);
    }
    next
}

// A space and the field.
#[tactic(auto, using(crate::proofs::PutLaws::puts), unfolding(crate::specs::Line::field, crate::specs::Line::bytes))]
pub fn put_field(out: &mut [u8], at: usize, f: Field) -> usize
    requires { at + 21 ≤ length out.old }
    ensures put { Puts (field f) out.old at out.new result }
    ensures near { result ≤ at + 21 }
{
    let next = put_byte(out, at, b' ');
    match f {
        Field::Number(n) => put_number(out, next, n),
        Field::Leave => put_bytes(out, next, b"leave"),
        Field::Absent => put_byte(out, next, b'-'),
    }
}

// The newline that ends a line.
pub fn put_end(out: &mut [u8], at: usize) -> usize
    requires { at < length out.old }
    ensures { Puts (10 ∷ []) out.old at out.new result }
{
    put_byte(out, at, b'\n')
}

fn put_bytes(out: &mut [u8], at: usize, word: &[u8]) -> usize
    requires { at + length word.now ≤ length out.old }
    ensures { Puts word.now out.old at out.new result }
{
    let end = at + word.len();
    out[at..end].copy_from_slice(word);
    end
}

// A number's digits.
fn put_number(out: &mut [u8], at: usize, n: u64) -> usize
    requires { at + length (decimal n) ≤ length out.old }
    ensures { Puts (decimal n) out.old at out.new result }
{
    if n < 10 {
        return put_digit(out, at, n);
    }
    let next = put_number(out, at, n / 10);
    put_digit(out, next, n % 10)
}

fn put_digit(out: &mut [u8], at: usize, d: u64) -> usize
    requires room { at < length out.old }
    requires digit { d < 10 }
    ensures { Puts ((48 + d) ∷ []) out.old at out.new result }
{
    put_byte(out, at, b'0' + d as u8)
}

fn put_byte(out: &mut [u8], at: usize, b: u8) -> usize
    requires { at < length out.old }
    ensures { Puts (b ∷ []) out.old at out.new result }
{
    out[at] = b;
    at + 1
}
