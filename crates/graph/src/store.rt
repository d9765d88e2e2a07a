// The store: a graph that a caller lends. No contract above this module says where a record stands.
pub mod blocks;
pub mod calls;
pub mod edges;
pub mod handlers;
pub mod regions;
pub mod table;
pub mod unresolved;

ghost use Rattle.std.specs.Prelude.{◌≡◌, min};
ghost use Rattle.graph.specs.Lent.{Sized, held_of, zeros};
ghost use Rattle.graph.specs.Stored.{entered, nothing, Stored, Emptied};
ghost use Rattle.graph.specs.WellFormed.{within_limits};

use crate::record::{
    Block, CallSite, Counts, Edge, HandlerRecord, Region, TableEntry, UnresolvedTransfer,
};
use crate::store::blocks::MOST_BLOCKS;
use crate::store::calls::MOST_CALLS;
use crate::store::edges::MOST_EDGES;
use crate::store::handlers::MOST_HANDLERS;
use crate::store::regions::MOST_REGIONS;
use crate::store::table::MOST_ENTRIES;
use crate::store::unresolved::MOST_UNRESOLVED;

const NO_RECORDS: Counts = Counts {
    table: 0,
    blocks: 0,
    edges: 0,
    regions: 0,
    handlers: 0,
    unresolved: 0,
    calls: 0,
};

// The rows past a count hold nothing, and a count past the end counts each row. `entry` is the block at which the sequence is
// entered.
#[repr(C)]
#[derive(Clone, Copy, PartialEq, Eq)]
pub struct Graph {
    pub counts: Counts,
    pub entry: u64,
    pub spare: [u64; 24],
    pub table: [TableEntry; MOST_ENTRIES],
    pub blocks: [Block; MOST_BLOCKS],
    pub edges: [Edge; MOST_EDGES],
    pub regions: [Region; MOST_REGIONS],
    pub handlers: [HandlerRecord; MOST_HANDLERS],
    pub unresolved: [UnresolvedTransfer; MOST_UNRESOLVED],
    pub calls: [CallSite; MOST_CALLS],
}

// What C callers know of it.
const _: () = prove!(size_of::<Graph>() == 43872 * 8);

// A graph of zeros.
#[tactic(auto, unfolding(crate::specs::Lent::held_of, image::specs::Image::table))]
pub fn zeros() -> Graph
    ensures words { result ≡ zeros }
    ensures holds { held_of result ≡ nothing }
{
    Graph {
        counts: NO_RECORDS,
        entry: 0,
        spare: [0; 24],
        table: [TableEntry::default(); MOST_ENTRIES],
        blocks: [Block::default(); MOST_BLOCKS],
        edges: [Edge::default(); MOST_EDGES],
        regions: [Region::default(); MOST_REGIONS],
        handlers: [HandlerRecord::default(); MOST_HANDLERS],
        unresolved: [UnresolvedTransfer::default(); MOST_UNRESOLVED],
        calls: [CallSite::default(); MOST_CALLS],
    }
}

// The block at which the sequence is entered.
#[tactic(auto, unfolding(crate::specs::Lent::held_of))]
pub fn entry(g: &Graph) -> u64
    ensures { result ≡ (held_of g.now).graph.entry }
{
    g.entry
}

pub fn set_entry(g: &mut Graph, b: u64)
    ensures { Stored g.old g.new (entered (held_of g.old) b) }
{
    g.entry = b;
}

// A graph with nothing in it: where a build begins.
pub fn empty(g: &mut Graph)
    ensures { Emptied g.old g.new }
{
    g.counts = NO_RECORDS;
    g.entry = 0;
}

// Whether the counts are within the limits of 21.
#[tactic(auto, unfolding(crate::specs::Lent::held_of, crate::specs::WellFormed::within_limits))]
pub fn within_limits(g: &Graph) -> bool
    ensures { result ≡ within_limits (held_of g.now).counts }
{
    let c = g.counts;
    let tables = c.table <= 512;
    let some = 1 <= c.blocks;
    let blocks = c.blocks <= 1024;
    let edges = c.edges <= 4096;
    let regions = c.regions <= 32;
    let handlers = c.handlers <= 32;
    let unresolved = c.unresolved <= 1024;
    let calls = c.calls <= 512;
    tables & some & blocks & edges & regions & handlers & unresolved & calls
}

// What the type says and lists do not: how many rows there are. A caller learns it by the call.
pub fn sized(g: &Graph)
    ensures { Sized g.now }
{
    let _table: &[TableEntry] = &g.table;
    let _blocks: &[Block] = &g.blocks;
    let _edges: &[Edge] = &g.edges;
    let _regions: &[Region] = &g.regions;
    let _handlers: &[HandlerRecord] = &g.handlers;
    let _unresolved: &[UnresolvedTransfer] = &g.unresolved;
    let _calls: &[CallSite] = &g.calls;
}

// How many rows are read: as many as are counted, and no more than there are.
fn rows(count: u64, most: usize) -> usize
    ensures { result ≡ min count most }
{
    let n = count as usize;
    if n < most { n } else { most }
}
