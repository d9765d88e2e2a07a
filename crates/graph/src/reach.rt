// The search for the reached blocks: a worklist over two sets, along edges that are linked by their source once.
ghost use Rattle.std.specs.Prelude.{◌≡◌, ◌+◌, ◌≤◌, ◌<◌, length, replicate};
ghost use Rattle.graph.specs.Lent.{held_of};
ghost use Rattle.graph.specs.Answers.{ReachedIn};
ghost use Rattle.graph.specs.Search.{Finds, Ends, Linked, Roomy, Follows, seeing};

use crate::blockset::{BlockSet, has_in, lowest_below, put_in, take_from};
use crate::error::AddressBuildError;
use crate::rule::is_graph;
use crate::store::blocks::block_count;
use crate::store::edges::{edge_count, edge_in};
use crate::store::{Graph, entry};

// Which blocks are reached, and how many; where no graph is held (21), none.
#[derive(Clone, Copy)]
pub struct ReachedSet {
    pub found: Result<(), AddressBuildError>,
    pub blocks: BlockSet,
    pub count: usize,
}

pub fn reached(g: &Graph) -> ReachedSet
    ensures { ReachedIn (held_of g.now) result }
{
    if !is_graph(g) {
        return ReachedSet {
            found: Err(AddressBuildError::NoGraph),
            blocks: BlockSet::empty(),
            count: 0,
        };
    }
    let blocks = reach(g);
    ReachedSet {
        found: Ok(()),
        blocks,
        count: blocks.size(),
    }
}

// The blocks that are reached in a graph whose ends exist.
#[tactic(auto, using(crate::proofs::RecordLaws::block_most, crate::proofs::RecordLaws::edge_most))]
fn reach(g: &Graph) -> BlockSet
    requires { Ends (held_of g.now).graph }
    ensures { Finds (held_of g.now).graph result.words }
{
    if block_count(g) <= 64 && edge_count(g) <= 256 {
        reach_within::<64, 256>(g)
    } else {
        reach_within::<1024, 4096>(g)
    }
}

// The same with room for the links of so many blocks and edges.
fn reach_within<const BLOCKS: usize, const EDGES: usize>(g: &Graph) -> BlockSet
    requires ends { Ends (held_of g.now).graph }
    requires blocks { length (held_of g.now).graph.blocks ≤ BLOCKS }
    requires edges { length (held_of g.now).graph.edges ≤ EDGES }
    requires small { BLOCKS + EDGES ≤ 65536 }
    ensures { Finds (held_of g.now).graph result.words }
{
    let mut head = [0u16; BLOCKS];
    let mut next = [0u16; EDGES];
    link(g, &mut head, &mut next);
    walk(g, &head, &next)
}

// Links the edges by their source, the last first, so that a block's edges are met in their order.
pub fn link(g: &Graph, head: &mut [u16], next: &mut [u16])
    requires { Ends (held_of g.now).graph × Roomy (held_of g.now).graph head.old next.old × (head.old ≡ replicate (length head.old) 0) }
    ensures { Linked (held_of g.now).graph head.new next.new 0 × Roomy (held_of g.now).graph head.new next.new }
{
    for i in (0..edge_count(g)).rev() {
        let b = edge_in(g, i).source as usize;
        next[i] = head[b];
        head[b] = (i + 1) as u16;
    }
}

// From the entry on: the lowest pending block is followed, until none is pending.
fn walk(g: &Graph, head: &[u16], next: &[u16]) -> BlockSet
    requires ends { Ends (held_of g.now).graph }
    requires room { Roomy (held_of g.now).graph head.now next.now }
    requires links { Linked (held_of g.now).graph head.now next.now 0 }
    ensures { Finds (held_of g.now).graph result.words }
{
    let blocks = block_count(g);
    let start = entry(g) as usize;
    let mut seen = [0u64; 16];
    let mut pending = [0u64; 16];
    put_in(&mut seen, start);
    put_in(&mut pending, start);
    while let Some(b) = lowest_below(&pending, blocks) {
        take_from(&mut pending, b);
        follow(g, head, next, b, &mut seen, &mut pending);
    }
    BlockSet { words: seen }
}

// Follows the edges from b. There is no slice to go over: each link says where the next one stands.
fn follow(
    g: &Graph,
    head: &[u16],
    next: &[u16],
    b: usize,
    seen: &mut [u64; 16],
    pending: &mut [u64; 16],
)
    requires ends { Ends (held_of g.now).graph }
    requires room { Roomy (held_of g.now).graph head.now next.now }
    requires links { Linked (held_of g.now).graph head.now next.now 0 }
    requires there { b < length (held_of g.now).graph.blocks }
    ensures { Follows (held_of g.now).graph b (length (held_of g.now).graph.edges) seen.old pending.old seen.new pending.new }
{
    let mut at = head[b] as usize;
    while at != 0 {
        let e = at - 1;
        see(seen, pending, edge_in(g, e).target as usize);
        at = next[e] as usize;
    }
}

// A block that an edge leads to: it is pending unless it was seen before.
fn see(seen: &mut [u64; 16], pending: &mut [u64; 16], t: usize)
    ensures seen { seen.new ≡ seeing seen.old t seen.old }
    ensures pending { pending.new ≡ seeing seen.old t pending.old }
{
    if has_in(seen, t) {
        return;
    }
    put_in(seen, t);
    put_in(pending, t);
}
