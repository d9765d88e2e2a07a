// Why given edges are refused where a block runs on without one (16).
ghost use Rattle.std.specs.Prelude.{◌≡◌, ◌<◌};
ghost use Rattle.graph.specs.Error.{check_of};
ghost use Rattle.graph.specs.Fold.{checks};
ghost use Rattle.graph.specs.Transfer.{size};
ghost use Rattle.graph.specs.Build.{continuation_check};
ghost use Rattle.builder.specs.Code.{image_of};
ghost use Rattle.builder.specs.Cursor.{visit_at};
ghost use Rattle.builder.specs.Marks.{Leading};

use crate::checks::GIVEN_EDGES;
use crate::code::Checked;
use crate::cursor::{Visit, cursor_after, cursor_start, given_at};
use crate::edges::is_terminator;
use crate::lookup::find_near;
use graph::error::AddressBuildError;

// In given mode a fall-through that no given edge replaces leads to a start: '16 MissingContinuation (source, target)'.
#[tactic(auto, using(crate::proofs::Row::rows, crate::proofs::ScanLaws::scan, crate::proofs::ContinuationLaws::not_continued))]
pub fn check_continuations(
    checked: &Checked<'_>,
    marks: &[bool; 512],
) -> Result<(), AddressBuildError>
    requires leading { Leading (image_of checked.now.code) marks.now }
    ensures { check_of result ≡ checks (continuation_check (image_of checked.now.code)) (size (image_of checked.now.code)) }
{
    if checked.code.image.layout.header.mode != GIVEN_EDGES {
        return Ok(());
    }
    let n = checked.code.size();
    let mut c = cursor_start();
    for p in 0..n {
        let i = checked.code.instruction(p);
        let given = given_at(&checked.code, c.source, i.address);
        let next = cursor_after(c, i.cases, given);
        let visit = Visit {
            instruction: i,
            given,
            next,
        };
        check_continuation(checked, marks, p, visit)?;
        c = next;
    }
    Ok(())
}

// The instruction at p: where it ends its block by its flow, which is Next or a call then (9), its end is a start.
#[tactic(auto, using(crate::proofs::Sizes::sizes))]
fn check_continuation(
    checked: &Checked<'_>,
    marks: &[bool; 512],
    p: usize,
    visit: Visit,
) -> Result<(), AddressBuildError>
    requires leading { Leading (image_of checked.now.code) marks.now }
    requires mode { (image_of checked.now.code).header.mode ≡ 2 }
    requires p_in { p < size (image_of checked.now.code) }
    requires visit { visit ≡ visit_at (image_of checked.now.code) p }
    ensures { check_of result ≡ continuation_check (image_of checked.now.code) p }
{
    let n = checked.code.size();
    if !is_terminator(marks, n, p) {
        return Ok(());
    }
    if visit.given.is_some() {
        return Ok(());
    }
    let i = visit.instruction;
    let target = i.end;
    let near = p + 1;
    let Some(_) = find_near(&checked.code, near, target) else {
        return Err(AddressBuildError::MissingContinuation {
            source: i.address,
            target,
        });
    };
    Ok(())
}
