// Marks of positions, lent to be set: `[bool; 512]`, as many as a table may have.
ghost use Rattle.std.specs.Prelude.{◌&&◌, ◌≡◌, ℕ, eqb, length};
ghost use Rattle.image.specs.Refusal.{clear};
ghost use Rattle.image.specs.Image.{Image};
ghost use Rattle.graph.specs.Table.{range_check};
ghost use Rattle.graph.specs.Transfer.{table_of, size};
ghost use Rattle.graph.specs.Leaders.{range_mark};
ghost use Rattle.builder.specs.Code.{image_of};
ghost use Rattle.builder.specs.Marks.{Marked, start_mark};
ghost use Rattle.builder.specs.Ranges.{Ranges};

use crate::code::Code;
use crate::lookup::find;
use crate::ranges::{Positions, RangeError};

// The positions of a range that no check refused, and the one behind them.
pub fn mark_range(marks: &mut [bool; 512], found: Result<Positions, RangeError>)
    ensures { (m : Image) (start end : ℕ) → range_check (table_of m) start end ≡ clear → Ranges (table_of m) start end found → Marked 512 (range_mark m start end) marks.old marks.new }
{
    let Ok(range) = found else {
        return;
    };
    for p in range.first..range.past {
        mark_at(marks, p);
    }
    mark_at(marks, range.past);
}

// The start at a, where `leads` holds.
pub fn mark_target_if(marks: &mut [bool; 512], code: &Code<'_>, leads: bool, a: u64)
    ensures { Marked (size (image_of code.now)) (λ p. leads && start_mark (table_of (image_of code.now)) a p) marks.old marks.new }
{
    if leads {
        mark_target(marks, code, a);
    }
}

// The instruction at p, where `leads` holds.
pub fn mark_if(marks: &mut [bool; 512], leads: bool, p: usize)
    ensures { Marked 512 (λ q. leads && eqb q p) marks.old marks.new }
{
    if leads {
        mark_at(marks, p);
    }
}

// The start at a, if there is one.
pub fn mark_target(marks: &mut [bool; 512], code: &Code<'_>, a: u64)
    ensures { Marked (size (image_of code.now)) (start_mark (table_of (image_of code.now)) a) marks.old marks.new }
{
    let Some(k) = find(code, a) else {
        return;
    };
    mark_at(marks, k);
}

// The instruction at p, where the marks reach it.
pub fn mark_at(marks: &mut [bool; 512], p: usize)
    ensures { Marked 512 (λ q. eqb q p) marks.old marks.new }
{
    whole(marks);
    if p < 512 {
        marks[p] = true;
    }
}

// What the type says and a list does not: how many marks there are. A caller learns it by the call.
fn whole(marks: &[bool; 512])
    ensures { length marks.now ≡ 512 }
{
    let _all: &[bool] = marks;
}
