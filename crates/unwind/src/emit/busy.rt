// The blocks that have a way out, and the nodes that return from some of them: the others need not be looked at.
ghost use Rattle.std.specs.Prelude.{◌≡◌, ℕ, ◌+◌, ◌*◌, ◌/◌, ◌%◌, ◌^◌, ◌≤◌, ◌<◌, min, eqb, length, get_or};
ghost use Rattle.unwind.specs.Gather.{in_set};
ghost use Rattle.unwind.specs.Placed.{returns_in};
ghost use Rattle.unwind.specs.Members.{Joins, Originals, BusyIn};

use crate::tries::store::number_in;

// The blocks of word w that one of the routes guards.
pub fn guarded_in(guards: &[u64], routes: usize, w: usize) -> u64
    requires { (16 * routes ≤ length guards.now) × (w < 16) }
    ensures { Joins (λ r b. in_set guards.now r b) routes w result }
{
    let mut all = 0;
    for r in 0..routes {
        all |= guards[16 * r + w];
    }
    all
}

// The nodes on the original blocks that return from one of the 64 blocks of word w: those of the first n, and how many there
// are.
pub fn original_nodes(
    bases: &[u16],
    parts: &[u64],
    returners: &[u64; 16],
    n: usize,
    w: usize,
    list: &mut [u16],
) -> usize
    requires { (n ≤ length list.old) × (n ≤ 544) × (16 * n ≤ length parts.now) × (w < 16) × (n ≤ length bases.now) }
    ensures { Originals bases.now (returns_in parts.now returners.now) list.new n w result }
{
    let mut count = 0;
    for i in 0..n {
        if number_in(bases, i) == 0 {
            if parts[16 * i + w] & returners[w] != 0 {
                list[count] = i as u16;
                count += 1;
            }
        }
    }
    count
}

// The blocks of word w that have a way out: those that are guarded, and those from which one of the listed nodes returns.
pub fn busy_in(
    guarded: u64,
    parts: &[u64],
    returners: &[u64; 16],
    originals: &[u16],
    listed: usize,
    w: usize,
) -> u64
    requires { (w < 16) × (listed ≤ length originals.now) × ((k : ℕ) → k < listed → 16 * get_or originals.now k 0 + 16 ≤ length parts.now) }
    ensures { BusyIn guarded (returns_in parts.now returners.now) originals.now listed w result }
{
    let mut all = 0;
    for &i in &originals[..listed] {
        all |= parts[16 * i as usize + w];
    }
    guarded | (all & returners[w])
}

// Whether the word of block b has it.
pub fn has_block(word: u64, b: usize) -> bool
    ensures { result ≡ eqb (word / 2 ^ (b % 64) % 2) 1 }
{
    (word >> (b % 64)) % 2 == 1
}

// Where the blocks of word w end, if there are `blocks` in all.
pub fn word_end(w: usize, blocks: usize) -> usize
    requires { w < 16 }
    ensures { result ≡ min (64 * w + 64) blocks }
{
    (64 * w + 64).min(blocks)
}
