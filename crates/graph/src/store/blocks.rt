// Blocks.
ghost use Rattle.std.specs.Prelude.{◌≡◌, ◌<◌, length};
ghost use Rattle.graph.specs.Graph.{block};
ghost use Rattle.graph.specs.Lent.{held_of};
ghost use Rattle.graph.specs.Stored.{with_block, Stored};

use crate::record::Block;
use crate::store::{Graph, rows, sized};

pub const MOST_BLOCKS: usize = 1024;

#[tactic(auto, unfolding(crate::specs::Lent::held_of), using(crate::proofs::RecordLaws::rows_read))]
pub fn blocks(g: &Graph) -> &[Block]
    ensures { result.now ≡ (held_of g.now).graph.blocks }
{
    sized(g);
    &g.blocks[..rows(g.counts.blocks, MOST_BLOCKS)]
}

// How many blocks there are.
pub fn block_count(g: &Graph) -> usize
    ensures { result ≡ length (held_of g.now).graph.blocks }
{
    blocks(g).len()
}

// Number i of them, and zeros past the last.
pub fn block_at(g: &Graph, i: usize) -> Block
    ensures { result ≡ block (held_of g.now).graph i }
{
    blocks(g).get(i).copied().unwrap_or_default()
}

// Number i, one of those that there are. Nothing is tested.
pub fn block_in(g: &Graph, i: usize) -> Block
    requires { i < length (held_of g.now).graph.blocks }
    ensures { result ≡ block (held_of g.now).graph i }
{
    blocks(g)[i]
}

// One more, behind the others; where there is no room, nothing changes.
pub fn add_block(g: &mut Graph, r: Block)
    ensures { Stored g.old g.new (with_block (held_of g.old) r) }
{
    let n = g.counts.blocks as usize;
    if n < MOST_BLOCKS {
        g.counts.blocks += 1;
        g.blocks[n] = r;
    }
}
