// A scan of the table: each instruction with what is given for it, and where its cases and given edges stand.
//
// The cursor is carried along, so that no position is counted anew.
ghost use Rattle.graph.specs.Transfer.{size};
ghost use Rattle.std.specs.Prelude.{◌≡◌, ◌<◌};
ghost use Rattle.image.specs.Image.{Image};
ghost use Rattle.builder.specs.Code.{image_of};
ghost use Rattle.builder.specs.Cursor.{Sourced, cursor_at, given_here, visit_at, after, Steps};

use crate::code::Code;
use image::record::Instruction;

// Position `at` of the table. The cases of its instruction stand from `case` on. `source` is the first given source that
// does not stand before it, and that one's edges stand from `edge` on.
#[derive(Clone, Copy)]
pub struct Cursor {
    pub at: usize,
    pub case: usize,
    pub source: usize,
    pub edge: usize,
}

// The instruction at a cursor, how many edges are given for it, if any are, and the cursor behind it. Where none are, it leads as
// its flow says.
#[derive(Clone, Copy)]
pub struct Visit {
    pub instruction: Instruction,
    pub given: Option<usize>,
    pub next: Cursor,
}

pub fn cursor_start() -> Cursor
    ensures { (m : Image) → result ≡ cursor_at m 0 }
{
    Cursor {
        at: 0,
        case: 0,
        source: 0,
        edge: 0,
    }
}

// A scan that every build makes does these three steps in its own loop instead: a `Visit` that is handed over costs more than
// what is done with it.
pub fn visit_at(code: &Code<'_>, c: Cursor) -> Visit
    requires sourced { Sourced (image_of code.now) }
    requires cursor { c ≡ cursor_at (image_of code.now) c.at }
    requires at_in { c.at < size (image_of code.now) }
    ensures { result ≡ visit_at (image_of code.now) c.at }
{
    let at = c.at;
    let instruction = code.instruction(at);
    let given = given_at(code, c.source, instruction.address);
    let next = cursor_after(c, instruction.cases, given);
    Visit {
        instruction,
        given,
        next,
    }
}

pub fn given_at(code: &Code<'_>, i: usize, address: u64) -> Option<usize>
    ensures { result ≡ given_here (image_of code.now).sources i address }
{
    let sources = code.image.sources();
    if i < sources.len() {
        let source = sources.get(i);
        if source.address == address {
            return Some(source.edges);
        }
    }
    None
}

pub fn cursor_after(c: Cursor, cases: usize, given: Option<usize>) -> Cursor
    requires { Steps c cases given }
    ensures { result ≡ after c cases given }
{
    let next = Cursor {
        at: c.at + 1,
        case: c.case + cases,
        ..c
    };
    match given {
        Some(edges) => Cursor {
            source: c.source + 1,
            edge: c.edge + edges,
            ..next
        },
        None => next,
    }
}
