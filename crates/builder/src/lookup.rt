// Address look-up: the position of the instruction that starts at an address.
ghost use Rattle.std.specs.Prelude.{◌≡◌, true, Some};
ghost use Rattle.graph.specs.Lookup.{Finds};
ghost use Rattle.graph.specs.Transfer.{table_of};
ghost use Rattle.builder.specs.Code.{image_of};

use crate::code::Code;

// A hint says where an address is likely to stand. Whatever the hints are, an answer is the same: each is tried before it is
// believed. This one is that address a stands at position p.
pub fn put_hint(hints: &mut [u16], a: u64, p: usize) {
    let slot = slot_of(a, hints.len());
    if let Some(hint) = hints.get_mut(slot) {
        *hint = (p % 65536) as u16;
    }
}

// The slot of an address, of 2^k - 1: their number masks it, and where it comes out itself, the address has no slot. The factor
// spreads addresses that rise by even steps.
fn slot_of(a: u64, slots: usize) -> usize {
    let mixed = a % 0x100000000 * 0x7972AD09;
    (mixed / 0x400000) as usize & slots
}

// In a table whose addresses rise: by its hint, or else by halving.
pub fn find(code: &Code<'_>, a: u64) -> Option<usize>
    ensures { Finds (table_of (image_of code.now)) a result }
{
    let hints = code.hints;
    if let Some(&near) = hints.get(slot_of(a, hints.len())) {
        let near = near as usize;
        if stands_at(code, near, a) {
            return Some(near);
        }
    }
    search(code, a)
}

// By halving. The table is bytes, of which std's search by halving has no slice.
fn search(code: &Code<'_>, a: u64) -> Option<usize>
    ensures { Finds (table_of (image_of code.now)) a result }
{
    let mut lo = 0;
    let mut hi = code.size();
    while lo < hi {
        let mid = lo + (hi - lo) / 2;
        let x = code.instruction(mid).address;
        if x == a {
            return Some(mid);
        }
        if x < a {
            lo = mid + 1;
        } else {
            hi = mid;
        }
    }
    None
}

// Where the position is likely to be `near`.
pub fn find_near(code: &Code<'_>, near: usize, a: u64) -> Option<usize>
    ensures { Finds (table_of (image_of code.now)) a result }
{
    if stands_at(code, near, a) {
        return Some(near);
    }
    search(code, a)
}

// Whether the instruction at position i starts at address a.
fn stands_at(code: &Code<'_>, i: usize, a: u64) -> bool
    ensures { result ≡ true → Finds (table_of (image_of code.now)) a (Some i) }
{
    i < code.size() && code.instruction(i).address == a
}
