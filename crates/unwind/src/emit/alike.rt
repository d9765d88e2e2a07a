// Blocks in a row with the same ways out: what was gathered of one stands for the next.
ghost use Rattle.std.specs.Prelude.{◌≡◌, true, ◌*◌, ◌≤◌, ◌<◌, length};
ghost use Rattle.unwind.specs.Placed.{returns_in};
ghost use Rattle.unwind.specs.Alike.{Moves, Steady, Turning, GoesOn};

use crate::sides::STAY;
use crate::slots::turns_at;
use crate::tries::store::number_in;
use graph::blockset::{has_in, sixteen};

// With fewer nodes it costs less to gather than to look.
const WORTH: usize = 16;

// Whether to look for such blocks: there are nodes enough, and no end resumes, so that no way out names its own block.
pub fn is_worth(nodes: usize, landings: &[u16], ends: usize) -> bool
    requires { ends ≤ length landings.now }
    ensures { result ≡ true → Moves landings.now ends }
{
    nodes >= WORTH && landings[..ends].iter().all(|&l| l as usize != STAY)
}

// Whether block b has the ways out of block `last`.
pub fn goes_on(worth: bool, turns: &[u64; 16], last: usize, b: usize) -> bool
    requires { last ≤ 1024 }
    ensures { result ≡ true → GoesOn worth turns.now last b }
{
    if !worth {
        return false;
    }
    if b != last + 1 {
        return false;
    }
    if b % 64 == 0 {
        return false;
    }
    !has_in(turns, last)
}

// Marks those of the first `blocks` blocks that the next may differ from.
pub fn mark_turns(
    guards: &[u64],
    routes: usize,
    parts: &[u64],
    returners: &[u64; 16],
    nodes: usize,
    blocks: usize,
    turns: &mut [u64; 16],
)
    requires { (16 * routes ≤ length guards.now) × (16 * nodes ≤ length parts.now) × (blocks ≤ 1024) }
    ensures { Turning guards.now routes (returns_in parts.now returners.now) nodes blocks turns.new }
{
    sixteen(turns);
    let words = (blocks + 63) / 64;
    for k in 0..words {
        let guarded = sets_turn(guards, routes, k);
        let returned = sets_turn(parts, nodes, k) | turns_at(returners, k);
        turns[k] = guarded | returned;
    }
}

// The places of word k at which one of the n sets has one of two blocks in a row alone.
fn sets_turn(sets: &[u64], n: usize, k: usize) -> u64
    requires { (16 * n ≤ length sets.now) × (k < 16) }
    ensures { Steady sets.now n k result }
{
    let mut t = 0;
    for i in 0..n {
        t = t | turns_at(sets, 16 * i + k);
    }
    t
}
