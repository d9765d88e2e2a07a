// Handlers, by their input index.
ghost use Rattle.std.specs.Prelude.{◌≡◌, length};
ghost use Rattle.graph.specs.Graph.{handler};
ghost use Rattle.graph.specs.Lent.{held_of};
ghost use Rattle.graph.specs.Stored.{with_handler, Stored};

use crate::record::HandlerRecord;
use crate::store::{Graph, rows, sized};

pub const MOST_HANDLERS: usize = 32;

#[tactic(auto, unfolding(crate::specs::Lent::held_of), using(crate::proofs::RecordLaws::rows_read))]
pub fn handlers(g: &Graph) -> &[HandlerRecord]
    ensures { result.now ≡ (held_of g.now).graph.handlers }
{
    sized(g);
    &g.handlers[..rows(g.counts.handlers, MOST_HANDLERS)]
}

// How many handlers there are.
pub fn handler_count(g: &Graph) -> usize
    ensures { result ≡ length (held_of g.now).graph.handlers }
{
    handlers(g).len()
}

// Number i of them, and zeros past the last.
pub fn handler_at(g: &Graph, i: usize) -> HandlerRecord
    ensures { result ≡ handler (held_of g.now).graph i }
{
    handlers(g).get(i).copied().unwrap_or_default()
}

// One more, behind the others; where there is no room, nothing changes.
pub fn add_handler(g: &mut Graph, r: HandlerRecord)
    ensures { Stored g.old g.new (with_handler (held_of g.old) r) }
{
    let n = g.counts.handlers as usize;
    if n < MOST_HANDLERS {
        g.counts.handlers += 1;
        g.handlers[n] = r;
    }
}
