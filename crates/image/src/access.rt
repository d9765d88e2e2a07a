// Record i of a section, straight from the bytes. What `_in` reads is there: nothing is tested. What `step_at` reads need not
// be: past the section's end it is the record of zeros.
ghost use Rattle.std.specs.Prelude.{[], ◌≡◌, ◌≤◌, ◌<◌, get_or};
ghost use Rattle.image.specs.Record.{instruction_from, case_from, source_from, edge_from, handler_from, route_from, path_from, step_from};
ghost use Rattle.image.specs.Image.{records_in};
ghost use Rattle.image.specs.There.{Holds};

use crate::kinds::Record;
use crate::little::{byte_at, u64_at};
use crate::record::{Case, GivenEdge, GivenSource, Handler, Instruction, Path, Route, Step};
use crate::section::{Section, place, place_by};

#[tactic(auto, using(crate::proofs::Tables::records))]
pub fn step_at(s: &[u8], y: Section, i: usize) -> Step
    ensures { result ≡ get_or (records_in step_from s.now y) i (step_from [] 0) }
{
    if i < y.count as usize {
        step_from(s, place(y, i))
    } else {
        Step { code: 0, value: 0 }
    }
}

pub fn instruction_in(s: &[u8], y: Section, i: usize) -> Instruction
    requires { Holds s.now y 31 × (i < y.count) }
    ensures { result ≡ get_or (records_in instruction_from s.now y) i (instruction_from [] 0) }
{
    record_in::<Instruction>(s, y, i)
}

pub fn source_in(s: &[u8], y: Section, i: usize) -> GivenSource
    requires { Holds s.now y 12 × (i < y.count) }
    ensures { result ≡ get_or (records_in source_from s.now y) i (source_from [] 0) }
{
    record_in::<GivenSource>(s, y, i)
}

pub fn case_in(s: &[u8], y: Section, i: usize) -> Case
    requires { Holds s.now y 12 × (i < y.count) }
    ensures { result ≡ get_or (records_in case_from s.now y) i (case_from [] 0) }
{
    record_in::<Case>(s, y, i)
}

pub fn edge_in(s: &[u8], y: Section, i: usize) -> GivenEdge
    requires { Holds s.now y 13 × (i < y.count) }
    ensures { result ≡ get_or (records_in edge_from s.now y) i (edge_from [] 0) }
{
    record_in::<GivenEdge>(s, y, i)
}

pub fn handler_in(s: &[u8], y: Section, i: usize) -> Handler
    requires { Holds s.now y 29 × (i < y.count) }
    ensures { result ≡ get_or (records_in handler_from s.now y) i (handler_from [] 0) }
{
    record_in::<Handler>(s, y, i)
}

pub fn route_in(s: &[u8], y: Section, i: usize) -> Route
    requires { Holds s.now y 20 × (i < y.count) }
    ensures { result ≡ get_or (records_in route_from s.now y) i (route_from [] 0) }
{
    record_in::<Route>(s, y, i)
}

pub fn path_in(s: &[u8], y: Section, i: usize) -> Path
    requires { Holds s.now y 13 × (i < y.count) }
    ensures { result ≡ get_or (records_in path_from s.now y) i (path_from [] 0) }
{
    record_in::<Path>(s, y, i)
}

pub fn step_in(s: &[u8], y: Section, i: usize) -> Step
    requires { Holds s.now y 9 × (i < y.count) }
    ensures { result ≡ get_or (records_in step_from s.now y) i (step_from [] 0) }
{
    record_in::<Step>(s, y, i)
}

// The record of any kind: its width is a number in the code, and costs less than the one that the section holds.
#[tactic(auto, using(crate::proofs::Tables::records))]
fn record_in<R: Record>(s: &[u8], y: Section, i: usize) -> R
    requires there { Holds s.now y R.WIDTH }
    requires within { i < y.count }
    ensures { result ≡ get_or (records_in R.from s.now y) i (R.from [] 0) }
{
    R::read(s, place_by(y, R::WIDTH, i))
}

// A step at a place that need not be there.
fn step_from(s: &[u8], at: usize) -> Step
    requires { at ≤ 18446744069414584320 }
    ensures { result ≡ step_from s.now at }
{
    if s.len() < at + 9 {
        Step {
            code: byte_at(s, at),
            value: u64_at(s, at + 1),
        }
    } else {
        Step::read(s, at)
    }
}
