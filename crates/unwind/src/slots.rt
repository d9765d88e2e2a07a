// Sets of blocks in a slice, sixteen words each. Nothing else looks into them.
ghost use Rattle.std.specs.Prelude.{◌≡◌, ◌+◌, ◌*◌, ◌/◌, ◌≤◌, ◌<◌, length, get_or};
ghost use Rattle.std.specs.Int.Bits.{bit_xor};
ghost use Rattle.graph.specs.BlockSet.{none, including, size_of};
ghost use Rattle.unwind.specs.Gather.{in_set};
ghost use Rattle.unwind.specs.Most.{members_of};
ghost use Rattle.unwind.specs.Placed.{set_at, returns_in, SetPut};

use graph::blockset::sixteen;

// The blocks of set i.
pub fn set_at(sets: &[u64], i: usize) -> [u64; 16]
    requires { 16 * i + 16 ≤ length sets.now }
    ensures { result ≡ set_at sets.now i }
{
    let at = 16 * i;
    let mut w = [0u64; 16];
    w.copy_from_slice(&sets[at..at + 16]);
    w
}

// Those of set i that v has too.
pub fn common_at(sets: &[u64], i: usize, v: &[u64; 16]) -> [u64; 16]
    requires { 16 * i + 16 ≤ length sets.now }
    ensures { result ≡ set_at (returns_in sets.now v.now) i }
{
    let at = 16 * i;
    let mut w = [0u64; 16];
    for k in 0..16 {
        w[k] = sets[at + k] & v[k];
    }
    w
}

pub fn put_set(sets: &mut [u64], i: usize, w: &[u64; 16])
    requires { 16 * i + 16 ≤ length sets.old }
    ensures { SetPut sets.old i w.now sets.new }
{
    sixteen(w);
    let at = 16 * i;
    sets[at..at + 16].copy_from_slice(w);
}

// Empties set i.
pub fn empty_set(sets: &mut [u64], i: usize)
    requires { 16 * i + 16 ≤ length sets.old }
    ensures { SetPut sets.old i none sets.new }
{
    let at = 16 * i;
    sets[at..at + 16].fill(0);
}

// Block b into set i.
pub fn put_block(sets: &mut [u64], i: usize, b: usize)
    requires { (16 * i + 16 ≤ length sets.old) × (b < 1024) }
    ensures { SetPut sets.old i (including (set_at sets.old i) b) sets.new }
{
    let k = 16 * i + b / 64;
    sets[k] = sets[k] | (1 << (b % 64));
}

// Whether set i has block b.
pub fn in_set(sets: &[u64], i: usize, b: usize) -> bool
    requires { (16 * i + 16 ≤ length sets.now) × (b < 1024) }
    ensures { result ≡ in_set sets.now i b }
{
    let k = 16 * i + b / 64;
    (sets[k] >> (b % 64)) % 2 == 1
}

// How many blocks set i has in its words up to `blocks`: all that are below, and maybe some that are not.
pub fn members_of(sets: &[u64], i: usize, blocks: usize) -> usize
    requires { (16 * i + 16 ≤ length sets.now) × (blocks ≤ 1024) }
    ensures { (members_of sets.now blocks i ≤ result) × (result ≤ size_of (set_at sets.now i)) }
{
    let at = 16 * i;
    let words = (blocks + 63) / 64;
    let mut n = 0;
    for k in 0..words {
        n += u64::count_ones(sets[at + k]) as usize;
    }
    n
}

// How many of those v has too.
pub fn members_in(sets: &[u64], i: usize, v: &[u64; 16], blocks: usize) -> usize
    requires { (16 * i + 16 ≤ length sets.now) × (blocks ≤ 1024) }
    ensures { (members_of (returns_in sets.now v.now) blocks i ≤ result) × (result ≤ size_of (set_at (returns_in sets.now v.now) i)) }
{
    let at = 16 * i;
    let words = (blocks + 63) / 64;
    let mut n = 0;
    for k in 0..words {
        n += u64::count_ones(sets[at + k] & v[k]) as usize;
    }
    n
}

// The places of word j whose bit differs from the next.
pub fn turns_at(sets: &[u64], j: usize) -> u64
    requires { j < length sets.now }
    ensures { result ≡ bit_xor (get_or sets.now j 0) (get_or sets.now j 0 / 2) }
{
    let w = sets[j];
    w ^ (w >> 1)
}
