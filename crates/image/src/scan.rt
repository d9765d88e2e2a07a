// The sections: a count, then the records, each of which is looked at once.
ghost use Rattle.std.specs.Prelude.{◌≡◌, ◌+◌, ◌*◌, ◌≤◌, ◌<◌, length, IfOk};
ghost use Rattle.image.specs.Little.{le4};
ghost use Rattle.image.specs.Verdict.{check_of};
ghost use Rattle.image.specs.Read.{children_in, children_of, records_form, count_form, section_form, adds, section_at, end_of};

use crate::check::{check_good, check_used4};
use crate::form::ImageError;
use crate::kinds::Record;
use crate::little::quad;
use crate::section::Section;

// Where the records that were scanned end, and how many children they have in all.
#[derive(Clone, Copy)]
pub struct Scanned {
    pub end: usize,
    pub children: u64,
}

// How many records a section has, where they end, and how many children they have in all.
#[derive(Clone, Copy)]
pub struct SectionRead {
    pub count: u32,
    pub end: usize,
    pub children: u64,
}

// Whether a section's count is as it has to be: as many as its parents have children, where it has parents.
fn adds_up(sum: Option<u64>, count: u64) -> bool
    ensures { result ≡ adds sum count }
{
    match sum {
        None => true,
        Some(children) => children == count,
    }
}

// The count of a section: there, 0 where the section is not used, within its limit, what the sum says.
fn read_count<R: Record>(
    s: &[u8],
    at: usize,
    used: bool,
    sum: Option<u64>,
) -> Result<u64, ImageError>
    requires { at < 16777216 }
    ensures check { check_of result ≡ count_form R.kind s.now at used sum }
    ensures value { IfOk result (λ n. n ≡ le4 s.now at) }
    ensures there { IfOk result (λ _. at + 4 ≤ length s.now) }
{
    check_used4(s, at, used)?;
    let count = quad(s, at);
    if R::LIMIT < count {
        return Err(ImageError::OverLimit { offset: at });
    }
    check_good(at, adds_up(sum, count))?;
    Ok(count)
}

// The n records from `base` on.
fn scan_records<R: Record>(s: &[u8], base: usize, n: usize) -> Result<Scanned, ImageError>
    requires behind { 4 ≤ base }
    requires low { base < 1073741824 }
    requires few { n ≤ 512 }
    requires there { base ≤ length s.now }
    ensures check { check_of result ≡ records_form R.kind s.now base n }
    ensures end { IfOk result (λ r. r.end ≡ base + R.WIDTH * n) }
    ensures children { IfOk result (λ r. r.children ≡ children_in R.kind s.now base n) }
    ensures there { IfOk result (λ r. r.end ≤ length s.now) }
{
    let mut at = base;
    let mut children: u64 = 0;
    for i in 0..n {
        R::check(s, at, i == 0)?;
        children += R::children(s, at);
        at += R::WIDTH;
    }
    Ok(Scanned { end: at, children })
}

// The section whose count stands at `at`, if it is used, with as many records as the sum says.
pub fn read_section<R: Record>(
    s: &[u8],
    at: usize,
    used: bool,
    sum: Option<u64>,
) -> Result<SectionRead, ImageError>
    requires { at < 16777216 }
    ensures check { check_of result ≡ section_form R.kind s.now at used sum }
    ensures count { IfOk result (λ r. r.count ≡ (section_at R.kind s.now at).count) }
    ensures end { IfOk result (λ r. r.end ≡ end_of (section_at R.kind s.now at)) }
    ensures children { IfOk result (λ r. r.children ≡ children_of R.kind s.now (section_at R.kind s.now at)) }
    ensures there { IfOk result (λ r. at + 4 + R.WIDTH * r.count ≤ length s.now) }
{
    let count = read_count::<R>(s, at, used, sum)?;
    let scanned = scan_records::<R>(s, at + 4, count as usize)?;
    Ok(SectionRead {
        count: count as u32,
        end: scanned.end,
        children: scanned.children,
    })
}

// Where the records of a section stand whose count stands at `at`.
pub fn section_of<R: Record>(at: usize, count: u32) -> Section
    requires { at < 16777216 }
    ensures { result ≡ record { at = at + 4; width = R.WIDTH; count = count } }
{
    Section {
        at: (at + 4) as u32,
        width: R::WIDTH as u32,
        count,
    }
}
