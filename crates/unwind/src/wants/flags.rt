// Which hops were wanted: a bit for each of 2,048. The word behind them says where the next hop that is looked for is likely
// to stand.
ghost use Rattle.std.specs.Prelude.{◌≡◌, ◌<◌};
ghost use Rattle.graph.specs.BlockSet.{member};
ghost use Rattle.unwind.specs.Flags.{FlagSet};

pub type Flags = [u64; 33];

const LIKELY: usize = 32;

// Sets the flag of hop k; whether it was set before. The hop behind it is likely to be next.
pub fn mark_wanted(done: &mut Flags, k: usize) -> bool
    requires { k < 2048 }
    ensures { (result ≡ member done.old k) × FlagSet done.old k done.new }
{
    let j = k / 64;
    let word = done[j];
    done[j] = word | (1 << (k % 64));
    done[LIKELY] = (k + 1) as u64;
    (word >> (k % 64)) % 2 == 1
}

pub fn likely_hop(done: &Flags) -> usize {
    done[LIKELY] as usize
}
