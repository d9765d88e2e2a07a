// Sets of blocks, of which there are 1,024: block b is bit b % 64 of word b / 64. No other module of this crate looks into a set's words.
ghost use Rattle.std.specs.Prelude.{◌≡◌, true, ℕ, ◌-◌, ◌*◌, ◌/◌, ◌%◌, ◌^◌, ◌≤◌, ◌<◌, ltb, length};
ghost use Rattle.std.specs.Int.Count.{ones, count_trailing_zeros};
ghost use Rattle.graph.specs.Fold.{count};
ghost use Rattle.graph.specs.BlockSet.{member, none, including, excluding, size_of, LowestOf, LowestFrom};
ghost use Rattle.graph.specs.WellFormed.{within};

#[derive(Clone, Copy)]
pub struct BlockSet {
    pub words: [u64; 16],
}

impl BlockSet {
    pub fn empty() -> Self
        ensures { result.words ≡ none }
    {
        BlockSet { words: [0; 16] }
    }

    pub fn has(self, b: usize) -> bool
        ensures { result ≡ member self.words b }
    {
        has_in(&self.words, b)
    }

    pub fn size(self) -> usize
        ensures { result ≡ size_of self.words }
    {
        size_of(&self.words)
    }

    pub fn lowest(self) -> Option<usize>
        ensures { LowestOf self.words result }
    {
        sixteen(&self.words);
        lowest_below(&self.words, 1024)
    }
}

// What the type says and a list does not: there are sixteen words. A caller learns it by the call.
pub fn sixteen(w: &[u64; 16])
    ensures { length w.now ≡ 16 }
{
    let _all: &[u64] = w;
}

#[tactic(auto, unfolding(crate::specs::BlockSet::member), using(crate::proofs::BlockLaws::member_past))]
pub fn has_in(w: &[u64; 16], b: usize) -> bool
    ensures { result ≡ member w.now b }
{
    sixteen(w);
    if b < 1024 {
        let k = b / 64;
        return (w[k] >> (b % 64)) % 2 == 1;
    }
    false
}

#[tactic(auto, unfolding(crate::specs::BlockSet::including), using(crate::proofs::BlockLaws::including_past, crate::proofs::Bit::one_shifted))]
pub fn put_in(w: &mut [u64; 16], b: usize)
    ensures { w.new ≡ including w.old b }
{
    sixteen(w);
    if b < 1024 {
        let k = b / 64;
        w[k] = w[k] | (1 << (b % 64));
    }
}

pub fn take_from(w: &mut [u64; 16], b: usize)
    ensures { w.new ≡ excluding w.old b }
{
    sixteen(w);
    if has_in(w, b) {
        let k = b / 64;
        w[k] = w[k] ^ (1 << (b % 64));
    }
}

// How many blocks there are, by counting ones.
pub fn size_of(w: &[u64; 16]) -> usize
    ensures { result ≡ size_of w.now }
{
    let mut n = 0;
    for word in w {
        n += ones_of(*word);
    }
    n
}

// How many blocks are below b. Most words of a set have none.
pub fn rank_in(w: &[u64; 16], b: usize) -> usize
    ensures { result ≡ count (member w.now) b }
{
    sixteen(w);
    let mut n = 0;
    for (i, word) in w.iter().enumerate() {
        if b / 64 == i {
            return n + ones_below(*word, b % 64);
        }
        if *word != 0 {
            n += ones_of(*word);
        }
    }
    n
}

// The lowest block, by trailing zeros; there is none from `past` on.
pub fn lowest_below(w: &[u64; 16], past: usize) -> Option<usize>
    requires { (past ≤ 1024) × ((b : ℕ) → member w.now b ≡ true → b < past) }
    ensures { LowestOf w.now result }
{
    sixteen(w);
    let words = (past + 63) / 64;
    for (i, word) in w[..words].iter().enumerate() {
        if *word != 0 {
            return Some(64 * i + zeros_of(*word));
        }
    }
    None
}

// The lowest block from `from` on; there is none from `past` on.
pub fn next_in(w: &[u64; 16], from: usize, past: usize) -> Option<usize>
    requires { (past ≤ 1024) × ((b : ℕ) → member w.now b ≡ true → b < past) }
    ensures { LowestFrom w.now from result }
{
    sixteen(w);
    if past <= from {
        return None;
    }
    let k = from / 64;
    let rest = digits_from(w[k], from % 64);
    if rest != 0 {
        return Some(from + zeros_of(rest));
    }
    let words = (past + 63) / 64;
    // Numbered over all words: `iter().enumerate().skip(..)` is no plainer.
    for i in k + 1..words {
        let word = w[i];
        if word != 0 {
            return Some(64 * i + zeros_of(word));
        }
    }
    None
}

fn ones_of(word: u64) -> usize
    ensures { (result ≡ ones word) × (result ≤ 64) × (word < 2 ^ 64) }
{
    u64::count_ones(word) as usize
}

// How many of the lowest k digits are ones.
fn ones_below(word: u64, k: usize) -> usize
    requires { k < 64 }
    ensures { (result ≡ ones (word % 2 ^ k)) × (result ≤ 64) × (word < 2 ^ 64) }
{
    ones_of(word % (1 << k))
}

// The digits from digit k on.
pub fn digits_from(word: u64, k: usize) -> u64
    requires { k < 64 }
    ensures { (result ≡ word / 2 ^ k) × (word < 2 ^ 64) }
{
    word >> k
}

pub fn zeros_of(word: u64) -> usize
    ensures { (result ≡ count_trailing_zeros 64 word) × (result ≤ 64) × (word < 2 ^ 64) }
{
    u64::trailing_zeros(word) as usize
}

// Whether word i has no bit from block n on.
fn word_below(word: u64, i: usize, n: usize) -> bool
    requires { i < 16 }
    ensures { result ≡ ltb word (2 ^ (n - 64 * i)) }
{
    let before = 64 * i;
    if n <= before {
        return word == 0;
    }
    let k = n - before;
    if k < 64 {
        return word >> k == 0;
    }
    true
}

// Whether every block is below n.
pub fn all_below(w: &[u64; 16], n: usize) -> bool
    ensures { result ≡ within n w.now }
{
    (0..16).all(|i| word_below(w[i], i, n))
}
