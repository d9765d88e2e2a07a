// Unresolved transfers.
ghost use Rattle.std.specs.Prelude.{◌≡◌, length};
ghost use Rattle.graph.specs.Graph.{unresolved_transfer};
ghost use Rattle.graph.specs.Lent.{held_of};
ghost use Rattle.graph.specs.Stored.{with_unresolved, Stored};

use crate::record::UnresolvedTransfer;
use crate::store::{Graph, rows, sized};

pub const MOST_UNRESOLVED: usize = 1024;

#[tactic(auto, unfolding(crate::specs::Lent::held_of), using(crate::proofs::RecordLaws::rows_read))]
pub fn transfers(g: &Graph) -> &[UnresolvedTransfer]
    ensures { result.now ≡ (held_of g.now).graph.unresolved }
{
    sized(g);
    &g.unresolved[..rows(g.counts.unresolved, MOST_UNRESOLVED)]
}

// How many unresolved transfers there are.
pub fn unresolved_count(g: &Graph) -> usize
    ensures { result ≡ length (held_of g.now).graph.unresolved }
{
    transfers(g).len()
}

// Number i of them, and zeros past the last.
pub fn unresolved_at(g: &Graph, i: usize) -> UnresolvedTransfer
    ensures { result ≡ unresolved_transfer (held_of g.now).graph i }
{
    transfers(g).get(i).copied().unwrap_or_default()
}

// One more, behind the others; where there is no room, nothing changes.
pub fn add_unresolved(g: &mut Graph, r: UnresolvedTransfer)
    ensures { Stored g.old g.new (with_unresolved (held_of g.old) r) }
{
    let n = g.counts.unresolved as usize;
    if n < MOST_UNRESOLVED {
        g.counts.unresolved += 1;
        g.unresolved[n] = r;
    }
}
