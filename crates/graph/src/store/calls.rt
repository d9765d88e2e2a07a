// Flattened calls.
ghost use Rattle.std.specs.Prelude.{◌≡◌, length};
ghost use Rattle.graph.specs.Graph.{call_site};
ghost use Rattle.graph.specs.Lent.{held_of};
ghost use Rattle.graph.specs.Stored.{with_call, Stored};

use crate::record::CallSite;
use crate::store::{Graph, rows, sized};

pub const MOST_CALLS: usize = 512;

#[tactic(auto, unfolding(crate::specs::Lent::held_of), using(crate::proofs::RecordLaws::rows_read))]
pub fn calls(g: &Graph) -> &[CallSite]
    ensures { result.now ≡ (held_of g.now).graph.calls }
{
    sized(g);
    &g.calls[..rows(g.counts.calls, MOST_CALLS)]
}

// How many calls there are.
pub fn call_count(g: &Graph) -> usize
    ensures { result ≡ length (held_of g.now).graph.calls }
{
    calls(g).len()
}

// Number i of them, and zeros past the last.
pub fn call_at(g: &Graph, i: usize) -> CallSite
    ensures { result ≡ call_site (held_of g.now).graph i }
{
    calls(g).get(i).copied().unwrap_or_default()
}

// One more, behind the others; where there is no room, nothing changes.
pub fn add_call(g: &mut Graph, r: CallSite)
    ensures { Stored g.old g.new (with_call (held_of g.old) r) }
{
    let n = g.counts.calls as usize;
    if n < MOST_CALLS {
        g.counts.calls += 1;
        g.calls[n] = r;
    }
}
