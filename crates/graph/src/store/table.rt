// The instruction table.
ghost use Rattle.std.specs.Prelude.{◌≡◌, ◌<◌, length};
ghost use Rattle.graph.specs.Table.{entry_at};
ghost use Rattle.graph.specs.Lent.{held_of};
ghost use Rattle.graph.specs.Stored.{with_entry, Stored};

use crate::record::TableEntry;
use crate::store::{Graph, rows, sized};

pub const MOST_ENTRIES: usize = 512;

#[tactic(auto, unfolding(crate::specs::Lent::held_of), using(crate::proofs::RecordLaws::rows_read))]
pub fn entries(g: &Graph) -> &[TableEntry]
    ensures { result.now ≡ (held_of g.now).graph.table }
{
    sized(g);
    &g.table[..rows(g.counts.table, MOST_ENTRIES)]
}

// How many entries there are.
pub fn table_count(g: &Graph) -> usize
    ensures { result ≡ length (held_of g.now).graph.table }
{
    entries(g).len()
}

// Number i of them, and zeros past the last.
#[tactic(auto, unfolding(crate::specs::Table::entry_at))]
pub fn table_at(g: &Graph, i: usize) -> TableEntry
    ensures { result ≡ entry_at (held_of g.now).graph.table i }
{
    entries(g).get(i).copied().unwrap_or_default()
}

// Number i, one of those that there are. Nothing is tested.
#[tactic(auto, unfolding(crate::specs::Table::entry_at))]
pub fn table_in(g: &Graph, i: usize) -> TableEntry
    requires { i < length (held_of g.now).graph.table }
    ensures { result ≡ entry_at (held_of g.now).graph.table i }
{
    entries(g)[i]
}

// One more, behind the others; where there is no room, nothing changes.
pub fn add_entry(g: &mut Graph, r: TableEntry)
    ensures { Stored g.old g.new (with_entry (held_of g.old) r) }
{
    let n = g.counts.table as usize;
    if n < MOST_ENTRIES {
        g.counts.table += 1;
        g.table[n] = r;
    }
}
