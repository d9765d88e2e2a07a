// An image whose table stands in order, the hints for its addresses, and where it ends: what all that follows the checks of the
// table is lent.
ghost use Rattle.std.specs.Prelude.{[], ◌≡◌, ◌<◌, length, get_or};
ghost use Rattle.image.specs.Record.{case_from, edge_from};
ghost use Rattle.image.specs.Refusal.{clear};
ghost use Rattle.image.specs.Whole.{contents};
ghost use Rattle.graph.specs.Fold.{checks};
ghost use Rattle.graph.specs.Lookup.{Rising};
ghost use Rattle.graph.specs.Transfer.{table_of, size, instruction_at};
ghost use Rattle.graph.specs.Leaders.{handler_at};
ghost use Rattle.graph.specs.Build.{input_check, given_check};
ghost use Rattle.builder.specs.Ranges.{Ended};
ghost use Rattle.builder.specs.Marks.{Passed};
ghost use Rattle.builder.specs.Emit.{Emitting};
ghost use Rattle.builder.specs.Drafts.{Handled};

use image::record::{Case, GivenEdge, Handler, Instruction};
use image::whole::Image;

#[derive(Drop)]
pub struct Code<'a> {
    pub image: Image<'a>,
    pub hints: &'a [u16],
    pub end: u64,
    pub ghost ended: { Ended (table_of (contents image)) end },
    pub ghost rising: { Rising (table_of (contents image)) },
}

impl<'a> Code<'a> {
    ghost use Rattle.builder.specs.Code.{image_of};

    pub fn size(&self) -> usize
        ensures { result ≡ size (image_of self.now) }
    {
        self.image.instructions().len()
    }

    #[tactic(auto, unfolding(graph::specs::Transfer::instruction_at))]
    pub fn instruction(&self, p: usize) -> Instruction
        requires { p < size (image_of self.now) }
        ensures { result ≡ instruction_at (image_of self.now) p }
    {
        self.image.instructions().get(p)
    }

    pub fn case(&self, k: usize) -> Case
        requires { k < length (image_of self.now).cases }
        ensures { result ≡ get_or (image_of self.now).cases k (case_from [] 0) }
    {
        self.image.cases().get(k)
    }

    pub fn edge(&self, e: usize) -> GivenEdge
        requires { e < length (image_of self.now).edges }
        ensures { result ≡ get_or (image_of self.now).edges e (edge_from [] 0) }
    {
        self.image.edges().get(e)
    }

    pub fn handler_count(&self) -> usize
        ensures { result ≡ length (image_of self.now).handlers }
    {
        self.image.handlers().len()
    }

    #[tactic(auto, unfolding(graph::specs::Leaders::handler_at))]
    pub fn handler(&self, h: usize) -> Handler
        requires { h < length (image_of self.now).handlers }
        ensures { result ≡ handler_at (image_of self.now) h }
    {
        self.image.handlers().get(h)
    }
}

// The same where 3 to 15 found nothing.
#[derive(Drop)]
pub struct Checked<'a> {
    pub code: Code<'a>,
    pub ghost clears: { input_check (contents code.image) ≡ clear },
    pub ghost passed: { Passed (contents code.image) },
    pub ghost given: { checks (given_check (contents code.image)) (size (contents code.image)) ≡ clear },
}

// The same with the number of each position's block.
#[derive(Drop)]
pub struct Numbered<'a> {
    pub code: Code<'a>,
    pub blocks: &'a [u16],
    pub ghost emitting: { Emitting (contents code.image) blocks.now },
    pub ghost handled: { Handled (contents code.image) blocks.now },
}
