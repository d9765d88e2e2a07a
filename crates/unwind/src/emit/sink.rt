// What takes the ways out of one block after the other: the words that store hops, or the sizes that count them.
ghost use Rattle.std.specs.Prelude.{[], ◌++◌, List, ℕ, ◌+◌, ◌*◌, ◌≤◌, ◌<◌, length};
ghost use Rattle.image.specs.Image.{RouteImage};
ghost use Rattle.addition.specs.Ways.{Hop};
ghost use Rattle.unwind.specs.Sources.{hops_on};
ghost use Rattle.unwind.specs.Entries.{exits_in};
ghost use Rattle.unwind.specs.HopWords.{HopsHeld, HopsFit};
ghost use Rattle.unwind.specs.Sinks.{SizesHeld, AnyFit, held_up, sizes_up};

use crate::emit::append::add_exits;
use crate::emit::count::{Sizes, sizes_both, sizes_of};
use crate::hops::Hops;

pub trait Sink {
    // It has hops, all out of blocks below a number, and is what it was before them but for that.
    ghost holds: { RouteImage → ℕ → List Hop → Self → Self → Type 0 };

    // There is room for hops.
    ghost fits: { List Hop → Type 0 };

    // The n entries of block b, behind those of lower blocks.
    fn take(&mut self, b: usize, exits: &[u16], n: usize)
        requires block { b < 65536 }
        requires few { n < 65536 }
        requires entries { 3 * n ≤ length exits.now }
        requires room { (m : RouteImage) × (hs : List Hop) × (old : Self) × holds m b hs old self.old × (more : List Hop) × fits ((hs ++ hops_on [] (exits_in m b exits.now n)) ++ more) }
        ensures { (m : RouteImage) (hs : List Hop) (old : Self) → holds m b hs old self.old → holds m (b + 1) (hs ++ hops_on [] (exits_in m b exits.now n)) old self.new };

    ghost higher: { (m : RouteImage) (b d : ℕ) (hs : List Hop) (old new : Self) → b ≤ d → holds m b hs old new → holds m d hs old new };
}

impl Sink for Hops {
    ghost holds = { λ m b hs old new. HopsHeld m b old new hs };

    ghost fits = { HopsFit };

    fn take(&mut self, b: usize, exits: &[u16], n: usize) {
        add_exits(self, b, exits, n);
    }

    ghost higher = { λ m b d hs old new h p. held_up d p h };
}

impl Sink for Sizes {
    ghost holds = { λ m b hs old new. SizesHeld b hs new };

    ghost fits = { AnyFit };

    fn take(&mut self, b: usize, exits: &[u16], n: usize) {
        *self = sizes_both(*self, sizes_of(exits, n));
    }

    ghost higher = { λ m b d hs old new h p. sizes_up d p h };
}
