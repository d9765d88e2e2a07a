// Regions.
ghost use Rattle.std.specs.Prelude.{◌≡◌, length};
ghost use Rattle.graph.specs.Graph.{region};
ghost use Rattle.graph.specs.Lent.{held_of};
ghost use Rattle.graph.specs.Stored.{with_region, Stored};

use crate::record::Region;
use crate::store::{Graph, rows, sized};

pub const MOST_REGIONS: usize = 32;

#[tactic(auto, unfolding(crate::specs::Lent::held_of), using(crate::proofs::RecordLaws::rows_read))]
pub fn regions(g: &Graph) -> &[Region]
    ensures { result.now ≡ (held_of g.now).graph.regions }
{
    sized(g);
    &g.regions[..rows(g.counts.regions, MOST_REGIONS)]
}

// How many regions there are.
pub fn region_count(g: &Graph) -> usize
    ensures { result ≡ length (held_of g.now).graph.regions }
{
    regions(g).len()
}

// Number i of them, and zeros past the last.
pub fn region_at(g: &Graph, i: usize) -> Region
    ensures { result ≡ region (held_of g.now).graph i }
{
    regions(g).get(i).copied().unwrap_or_default()
}

// One more, behind the others; where there is no room, nothing changes.
pub fn add_region(g: &mut Graph, r: Region)
    ensures { Stored g.old g.new (with_region (held_of g.old) r) }
{
    let n = g.counts.regions as usize;
    if n < MOST_REGIONS {
        g.counts.regions += 1;
        g.regions[n] = r;
    }
}
