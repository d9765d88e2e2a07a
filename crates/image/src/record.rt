// The records of an image, field by field as document 01 lists them in 'The sequence image'.

ghost use Rattle.std.specs.Prelude.{◌≡◌};
ghost use Rattle.image.specs.Record.{header_from};

use crate::little::{byte_at, u64_at};

// The first twelve bytes: how the sequence is built, and where it is entered.
#[derive(Clone, Copy, Debug, PartialEq, Eq)]
pub struct Header {
    pub mode: u64,
    pub calls: u64,
    pub has_entry: bool,
    pub entry: u64,
}

#[derive(Clone, Copy, Debug, PartialEq, Eq)]
pub struct Instruction {
    pub address: u64,
    pub end: u64,
    pub has_end: bool,
    pub keeps: bool,
    pub flow: u64,
    pub target: u64,
    pub cases: usize,
}

#[derive(Clone, Copy, Debug, PartialEq, Eq)]
pub struct Case {
    pub key: u64,
    pub target: u64,
}

#[derive(Clone, Copy, Debug, PartialEq, Eq)]
pub struct GivenSource {
    pub address: u64,
    pub edges: usize,
}

#[derive(Clone, Copy, Debug, PartialEq, Eq)]
pub struct GivenEdge {
    pub target: u64,
    pub kind: u64,
    pub payload: u64,
}

#[derive(Clone, Copy, Debug, PartialEq, Eq)]
pub struct Handler {
    pub start: u64,
    pub end: u64,
    pub entry: u64,
    pub kind: u64,
    pub filter: u64,
}

#[derive(Clone, Copy, Debug, PartialEq, Eq)]
pub struct Route {
    pub start: u64,
    pub end: u64,
    pub paths: usize,
}

#[derive(Clone, Copy, Debug, PartialEq, Eq)]
pub struct Path {
    pub end: u64,
    pub handler: u64,
    pub steps: usize,
}

#[derive(Clone, Copy, Debug, PartialEq, Eq)]
pub struct Step {
    pub code: u64,
    pub value: u64,
}

pub fn header_from(s: &[u8]) -> Header
    ensures { result ≡ header_from s.now }
{
    let has_entry = byte_at(s, 3) == 1;
    Header {
        mode: byte_at(s, 1),
        calls: byte_at(s, 2),
        has_entry,
        entry: u64_at(s, 4),
    }
}
