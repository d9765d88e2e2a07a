// The eight kinds of records: how many bytes each takes, what form it has, and how it is read.
ghost use Rattle.std.specs.Prelude.{List, ◌≡◌, ℕ, false, ◌||◌, ◌+◌, ◌-◌, ◌≤◌, ◌<◌, ltb, length, IfOk, refl};
ghost use Rattle.image.specs.Kind.{Kind, Instructions, Cases, Sources, Edges, Handlers, Routes, Paths, Steps};
ghost use Rattle.image.specs.Little.{le8};
ghost use Rattle.image.specs.Record.{instruction_from, case_from, source_from, edge_from, handler_from, route_from, path_from, step_from};
ghost use Rattle.image.specs.Verdict.{check_of};
ghost use Rattle.image.specs.Form.{field, names_target, form_of};
ghost use Rattle.image.specs.Read.{width_of, limit_of, children_at};

use crate::check::{check_byte, check_good, check_there, check_used4, check_used8};
use crate::form::{ImageError, allowed};
use crate::little::{byte_in, octet, quad};
use crate::record::{Case, GivenEdge, GivenSource, Handler, Instruction, Path, Route, Step};

pub trait Record: Copy {
    // The bytes of a record, and how many of them a section may have.
    const WIDTH: usize;

    const LIMIT: u64;

    ghost kind: { Kind };

    ghost WIDTH: { ℕ };

    ghost LIMIT: { ℕ };

    ghost from: { List ℕ → ℕ → Self };

    // Which field is bad first of the record at a place, the first of its section or a later one.
    fn check(bytes: &[u8], at: usize, first: bool) -> Result<(), ImageError>
        requires behind { first ≡ false → 12 ≤ at }
        requires low { at < 2147483648 }
        ensures check { check_of result ≡ form_of kind bytes.now at first }
        ensures there { IfOk result (λ _. at + WIDTH ≤ length bytes.now) };

    // How many children it has.
    fn children(bytes: &[u8], at: usize) -> u64
        requires { at + WIDTH ≤ length bytes.now }
        ensures is { result ≡ children_at kind bytes.now at }
        ensures most { result < 4294967296 };

    // A record that is there: each field is one load.
    fn read(bytes: &[u8], at: usize) -> Self
        requires { at + WIDTH ≤ length bytes.now }
        ensures { result ≡ from bytes.now at };

    ghost width_is: { WIDTH ≡ width_of kind };

    ghost limit_is: { LIMIT ≡ limit_of kind };
}

impl Record for Instruction {
    const WIDTH: usize = 31;

    const LIMIT: u64 = 512;

    ghost kind = { Instructions };

    ghost WIDTH = { 31 };

    ghost LIMIT = { 512 };

    ghost from = { instruction_from };

    // A flow that names no target leaves it 0, and only a Switch, 12, has cases.
    fn check(bytes: &[u8], at: usize, _first: bool) -> Result<(), ImageError> {
        check_there(bytes, at, 8)?;
        check_there(bytes, at + 8, 8)?;
        let flag = check_byte(bytes, at + 16, 1)?;
        let end = octet(bytes, at + 8);
        check_good(at + 8, allowed(flag == 1, end))?;
        check_byte(bytes, at + 17, 1)?;
        let flow = check_byte(bytes, at + 18, 12)?;
        check_used8(bytes, at + 19, names_target(flow))?;
        check_used4(bytes, at + 27, flow == 12)
    }

    fn children(bytes: &[u8], at: usize) -> u64 {
        quad(bytes, at + 27)
    }

    fn read(bytes: &[u8], at: usize) -> Self {
        let has_end = byte_in(bytes, at + 16) == 1;
        let keeps = byte_in(bytes, at + 17) == 1;
        Instruction {
            address: octet(bytes, at),
            end: octet(bytes, at + 8),
            has_end,
            keeps,
            flow: byte_in(bytes, at + 18),
            target: octet(bytes, at + 19),
            cases: quad(bytes, at + 27) as usize,
        }
    }

    ghost width_is = { refl };

    ghost limit_is = { refl };
}

#[tactic(auto, unfolding(crate::specs::Form::names_target))]
fn names_target(flow: u64) -> bool
    ensures { result ≡ names_target flow }
{
    matches!(flow, 6..=9 | 12)
}

impl Record for Case {
    const WIDTH: usize = 12;

    const LIMIT: u64 = 512;

    ghost kind = { Cases };

    ghost WIDTH = { 12 };

    ghost LIMIT = { 512 };

    ghost from = { case_from };

    fn check(bytes: &[u8], at: usize, _first: bool) -> Result<(), ImageError> {
        check_there(bytes, at, 4)?;
        check_there(bytes, at + 4, 8)
    }

    fn children(_bytes: &[u8], _at: usize) -> u64 {
        0
    }

    fn read(bytes: &[u8], at: usize) -> Self {
        Case {
            key: quad(bytes, at),
            target: octet(bytes, at + 4),
        }
    }

    ghost width_is = { refl };

    ghost limit_is = { refl };
}

impl Record for GivenSource {
    const WIDTH: usize = 12;

    const LIMIT: u64 = 512;

    ghost kind = { Sources };

    ghost WIDTH = { 12 };

    ghost LIMIT = { 512 };

    ghost from = { source_from };

    // The first of its section, or one that lies above the source before it.
    fn check(bytes: &[u8], at: usize, first: bool) -> Result<(), ImageError> {
        check_rising(bytes, at, first)?;
        check_there(bytes, at + 8, 4)
    }

    fn children(bytes: &[u8], at: usize) -> u64 {
        quad(bytes, at + 8)
    }

    fn read(bytes: &[u8], at: usize) -> Self {
        GivenSource {
            address: octet(bytes, at),
            edges: quad(bytes, at + 8) as usize,
        }
    }

    ghost width_is = { refl };

    ghost limit_is = { refl };
}

#[tactic(auto, unfolding(crate::specs::Form::field))]
fn check_rising(bytes: &[u8], at: usize, first: bool) -> Result<(), ImageError>
    requires behind { first ≡ false → 12 ≤ at }
    requires low { at < 2147483648 }
    ensures { check_of result ≡ field bytes.now at 8 (first || ltb (le8 bytes.now (at - 12)) (le8 bytes.now at)) }
{
    check_there(bytes, at, 8)?;
    check_good(at, first || octet(bytes, at - 12) < octet(bytes, at))
}

impl Record for GivenEdge {
    const WIDTH: usize = 13;

    const LIMIT: u64 = 512;

    ghost kind = { Edges };

    ghost WIDTH = { 13 };

    ghost LIMIT = { 512 };

    ghost from = { edge_from };

    fn check(bytes: &[u8], at: usize, _first: bool) -> Result<(), ImageError> {
        check_there(bytes, at, 8)?;
        check_byte(bytes, at + 8, 7)?;
        check_there(bytes, at + 9, 4)
    }

    fn children(_bytes: &[u8], _at: usize) -> u64 {
        0
    }

    fn read(bytes: &[u8], at: usize) -> Self {
        GivenEdge {
            target: octet(bytes, at),
            kind: byte_in(bytes, at + 8),
            payload: quad(bytes, at + 9),
        }
    }

    ghost width_is = { refl };

    ghost limit_is = { refl };
}

impl Record for Handler {
    const WIDTH: usize = 29;

    const LIMIT: u64 = 32;

    ghost kind = { Handlers };

    ghost WIDTH = { 29 };

    ghost LIMIT = { 32 };

    ghost from = { handler_from };

    // Only a Filter, 4, has a filter block.
    fn check(bytes: &[u8], at: usize, _first: bool) -> Result<(), ImageError> {
        check_there(bytes, at, 8)?;
        check_there(bytes, at + 8, 8)?;
        check_there(bytes, at + 16, 8)?;
        let kind = check_byte(bytes, at + 24, 4)?;
        check_used4(bytes, at + 25, kind == 4)
    }

    fn children(_bytes: &[u8], _at: usize) -> u64 {
        0
    }

    fn read(bytes: &[u8], at: usize) -> Self {
        Handler {
            start: octet(bytes, at),
            end: octet(bytes, at + 8),
            entry: octet(bytes, at + 16),
            kind: byte_in(bytes, at + 24),
            filter: quad(bytes, at + 25),
        }
    }

    ghost width_is = { refl };

    ghost limit_is = { refl };
}

impl Record for Route {
    const WIDTH: usize = 20;

    const LIMIT: u64 = 32;

    ghost kind = { Routes };

    ghost WIDTH = { 20 };

    ghost LIMIT = { 32 };

    ghost from = { route_from };

    fn check(bytes: &[u8], at: usize, _first: bool) -> Result<(), ImageError> {
        check_there(bytes, at, 8)?;
        check_there(bytes, at + 8, 8)?;
        check_there(bytes, at + 16, 4)
    }

    fn children(bytes: &[u8], at: usize) -> u64 {
        quad(bytes, at + 16)
    }

    fn read(bytes: &[u8], at: usize) -> Self {
        Route {
            start: octet(bytes, at),
            end: octet(bytes, at + 8),
            paths: quad(bytes, at + 16) as usize,
        }
    }

    ghost width_is = { refl };

    ghost limit_is = { refl };
}

impl Record for Path {
    const WIDTH: usize = 13;

    const LIMIT: u64 = 128;

    ghost kind = { Paths };

    ghost WIDTH = { 13 };

    ghost LIMIT = { 128 };

    ghost from = { path_from };

    // Only an end that is a handler, 0, has an address.
    fn check(bytes: &[u8], at: usize, _first: bool) -> Result<(), ImageError> {
        let end = check_byte(bytes, at, 2)?;
        check_used8(bytes, at + 1, end == 0)?;
        check_there(bytes, at + 9, 4)
    }

    fn children(bytes: &[u8], at: usize) -> u64 {
        quad(bytes, at + 9)
    }

    fn read(bytes: &[u8], at: usize) -> Self {
        Path {
            end: byte_in(bytes, at),
            handler: octet(bytes, at + 1),
            steps: quad(bytes, at + 9) as usize,
        }
    }

    ghost width_is = { refl };

    ghost limit_is = { refl };
}

impl Record for Step {
    const WIDTH: usize = 9;

    const LIMIT: u64 = 512;

    ghost kind = { Steps };

    ghost WIDTH = { 9 };

    ghost LIMIT = { 512 };

    ghost from = { step_from };

    // A call's tag has four bytes, a funclet's address eight.
    #[tactic(auto, unfolding(crate::specs::Form::field))]
    fn check(bytes: &[u8], at: usize, _first: bool) -> Result<(), ImageError> {
        let code = check_byte(bytes, at, 1)?;
        check_there(bytes, at + 1, 8)?;
        check_good(at + 1, code == 0 || octet(bytes, at + 1) < 4294967296)
    }

    fn children(_bytes: &[u8], _at: usize) -> u64 {
        0
    }

    fn read(bytes: &[u8], at: usize) -> Self {
        Step {
            code: byte_in(bytes, at),
            value: octet(bytes, at + 1),
        }
    }

    ghost width_is = { refl };

    ghost limit_is = { refl };
}
