// The sizes of what is added, before any of it is stored.
ghost use Rattle.std.specs.Prelude.{◌≡◌, ◌*◌, ◌≤◌, ◌<◌, length};
ghost use Rattle.unwind.specs.Sizes.{SizesOf, sizes_then, sizes_both};

use crate::emit::entries::LEAVE;
use crate::tries::store::branch_in;

// Hops, the lists that they have, and the hops that end at a block: one route edge each.
#[derive(Clone, Copy)]
pub struct Sizes {
    pub hops: usize,
    pub lists: usize,
    pub blocks: usize,
}

// No end: what stands before the first entry. A number, as ends are, so that one comparison tells.
const NOWHERE: usize = 65536;

pub fn sizes_both(p: Sizes, q: Sizes) -> Sizes
    requires { (p.hops < 1099511627776) × (p.lists < 1099511627776) × (p.blocks < 1099511627776) × (q.hops < 1099511627776) × (q.lists < 1099511627776) × (q.blocks < 1099511627776) }
    ensures { result ≡ sizes_both p q }
{
    Sizes {
        hops: p.hops + q.hops,
        lists: p.lists + q.lists,
        blocks: p.blocks + q.blocks,
    }
}

// Those of the n ways out of one block.
pub fn sizes_of(exits: &[u16], n: usize) -> Sizes
    requires { (3 * n ≤ length exits.now) × (n < 65536) }
    ensures { SizesOf exits.now n result }
{
    let mut sizes = Sizes {
        hops: 0,
        lists: 0,
        blocks: 0,
    };
    let mut last = NOWHERE;
    for k in 0..n {
        let end = branch_in(exits, k).what;
        sizes = with_entry(sizes, last, end);
        last = end;
    }
    sizes
}

// One entry more, behind one to `last`: a hop more if it ends elsewhere.
fn with_entry(z: Sizes, last: usize, end: usize) -> Sizes
    requires { (z.hops < 4294967296) × (z.lists < 4294967296) × (z.blocks < 4294967296) }
    ensures { result ≡ sizes_then z last end }
{
    let lists = z.lists + 1;
    if last == end {
        return Sizes {
            hops: z.hops,
            lists,
            blocks: z.blocks,
        };
    }
    if end == LEAVE {
        return Sizes {
            hops: z.hops + 1,
            lists,
            blocks: z.blocks,
        };
    }
    Sizes {
        hops: z.hops + 1,
        lists,
        blocks: z.blocks + 1,
    }
}
