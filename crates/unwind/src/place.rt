// Instances in scratch: for each node of the trie the first of its copies, its entry and its blocks. A node is a number, the same in
// each slice.
ghost use Rattle.std.specs.Prelude.{◌≡◌, true, ℕ, ◌+◌, ◌*◌, ◌≤◌, ◌<◌, length, get_or};
ghost use Rattle.image.specs.Refusal.{clear};
ghost use Rattle.image.specs.Image.{routes_in};
ghost use Rattle.graph.specs.Lent.{held_of};
ghost use Rattle.graph.specs.Error.{check_of};
ghost use Rattle.graph.specs.Fold.{count};
ghost use Rattle.graph.specs.BlockSet.{member, none, size_of};
ghost use Rattle.graph.specs.Search.{Linked, Roomy};
ghost use Rattle.graph.specs.WellFormed.{is_built};
ghost use Rattle.unwind.specs.Stands.{Stands};
ghost use Rattle.unwind.specs.PartSearch.{PartFrom};
ghost use Rattle.addition.specs.Instance.{entry_block};
ghost use Rattle.addition.specs.Add.{funclet_check};
ghost use Rattle.unwind.specs.Most.{members_of};
ghost use Rattle.unwind.specs.Placed.{set_at, Slots, funclet_at, Entered, Ready, Firsts, NodePlaced, Placing, PlacedAll};

use crate::part::part_of;
use crate::slots::{empty_set, members_of, put_set, set_at};
use crate::tries::store::{node_in, number_in};
use graph::blockset::rank_in;
use graph::error::AddressBuildError;
use graph::store::Graph;
use graph::store::blocks::block_count;
use image::section::RouteLayout;

// Most blocks of a graph (18).
const MOST: usize = 1024;

// The instances of the n nodes, told the entries of their funclets, by the first node of each; 18 where with their copies there
// are too many blocks. Of the routes nothing is read; the contract speaks of them.
pub fn place_nodes(
    g: &Graph,
    s: &[u8],
    y: RouteLayout,
    nodes: &[u16],
    n: usize,
    head: &[u16],
    next: &[u16],
    barriers: &[u64; 16],
    bases: &mut [u16],
    entries: &mut [u16],
    parts: &mut [u64],
    firsts: &mut [u16],
) -> Result<(), AddressBuildError>
    requires ready { Ready (held_of g.now).graph (routes_in s.now y) head.now next.now barriers.now }
    requires leads { (i : ℕ) → i < n → funclet_check (held_of g.now).graph (funclet_at (routes_in s.now y) nodes.now i) ≡ clear }
    requires slots { Slots n bases.old entries.old parts.old }
    requires firsts { Firsts (held_of g.now).graph (routes_in s.now y) nodes.now firsts.old 0 }
    requires few { n ≤ 544 }
    requires nodes_fit { 6 * n ≤ length nodes.now }
    requires entered { Entered (held_of g.now).graph (routes_in s.now y) nodes.now entries.old n }
    ensures { PlacedAll (held_of g.now).graph (routes_in s.now y) nodes.now n bases.new entries.new parts.new (check_of result) }
{
    let mut base = block_count(g);
    for i in 0..n {
        base += place_node(
            g, s, y, nodes, head, next, barriers, i, base, bases, entries, parts, firsts,
        );
        if MOST < base {
            return Err(AddressBuildError::TooManyBlocks);
        }
    }
    Ok(())
}

// Node i: the first of its funclet has the original blocks, a later one copies, which begin with block `base`; how many.
fn place_node(
    g: &Graph,
    s: &[u8],
    y: RouteLayout,
    nodes: &[u16],
    head: &[u16],
    next: &[u16],
    barriers: &[u64; 16],
    i: usize,
    base: usize,
    bases: &mut [u16],
    entries: &mut [u16],
    parts: &mut [u64],
    firsts: &mut [u16],
) -> usize
    requires ready { Ready (held_of g.now).graph (routes_in s.now y) head.now next.now barriers.now }
    requires leads { (j : ℕ) → j ≤ i → funclet_check (held_of g.now).graph (funclet_at (routes_in s.now y) nodes.now j) ≡ clear }
    requires slots { Slots (i + 1) bases.old entries.old parts.old }
    requires firsts { Firsts (held_of g.now).graph (routes_in s.now y) nodes.now firsts.old i }
    requires few { i < 544 }
    requires base_most { base ≤ 1024 }
    requires nodes_fit { 6 * i + 6 ≤ length nodes.now }
    requires entry_is { get_or entries.old i 0 ≡ entry_block (held_of g.now).graph (funclet_at (routes_in s.now y) nodes.now i) }
    ensures placing { Placing (held_of g.now).graph (routes_in s.now y) nodes.now i base result bases.old entries.old parts.old bases.new entries.new parts.new }
    ensures firsts { Firsts (held_of g.now).graph (routes_in s.now y) nodes.now firsts.new (i + 1) }
{
    let f = node_in(nodes, i).funclet;
    let entry = number_in(entries, i);
    let slot = slot_of(f, entry);
    let first = number_in(firsts, slot);
    if first != 0 {
        let blocks = block_count(g);
        return place_clone(blocks, first - 1, i, base, bases, entries, parts);
    }
    firsts[slot] = (i + 1) as u16;
    place_first(g, head, next, barriers, f, i, entry, bases, entries, parts);
    0
}

// Node i, the first of the funclet that step f - 1 names, whose entry is block `entry`: it has the original blocks, those of the
// funclet's part; none at the root of a route.
fn place_first(
    g: &Graph,
    head: &[u16],
    next: &[u16],
    barriers: &[u64; 16],
    f: usize,
    i: usize,
    entry: usize,
    bases: &mut [u16],
    entries: &mut [u16],
    parts: &mut [u64],
)
    requires stands { Stands (held_of g.now).graph }
    requires roomy { Roomy (held_of g.now).graph head.now next.now }
    requires linked { Linked (held_of g.now).graph head.now next.now 0 }
    requires leads { (f ≡ 0 → ⊥) → (entry < length (held_of g.now).graph.blocks) × (is_built (held_of g.now).graph entry ≡ true) }
    requires slots { Slots (i + 1) bases.old entries.old parts.old }
    requires entry_most { entry ≤ 1024 }
    ensures placed { NodePlaced i 0 entry (set_at parts.new i) bases.old entries.old parts.old bases.new entries.new parts.new }
    ensures root { f ≡ 0 → set_at parts.new i ≡ none }
    ensures part { (f ≡ 0 → ⊥) → PartFrom (held_of g.now).graph barriers.now entry (set_at parts.new i) }
{
    bases[i] = 0;
    entries[i] = entry as u16;
    empty_set(parts, i);
    if f != 0 {
        part_of(g, head, next, barriers, entry, parts, i);
    }
}

// Node i, a later one of the funclet of node `first`: it has copies, the first of which is block `base`. How many? As many as
// the blocks of the funclet, which are below `blocks`.
fn place_clone(
    blocks: usize,
    first: usize,
    i: usize,
    base: usize,
    bases: &mut [u16],
    entries: &mut [u16],
    parts: &mut [u64],
) -> usize
    requires earlier { first < i }
    requires slots { Slots (i + 1) bases.old entries.old parts.old }
    requires base_most { base ≤ 1024 }
    requires blocks_most { blocks ≤ 1024 }
    ensures placed { NodePlaced i base (base + count (member (set_at parts.old first)) (get_or entries.old first 0)) (set_at parts.old first) bases.old entries.old parts.old bases.new entries.new parts.new }
    ensures members { members_of parts.old blocks first ≤ result }
    ensures size { result ≤ size_of (set_at parts.old first) }
{
    let part = set_at(parts, first);
    let entry = base + rank_in(&part, number_in(entries, first));
    let copies = members_of(parts, first, blocks);
    store_node(i, base, entry, &part, bases, entries, parts);
    copies
}

// The slot of the funclet that step f - 1 names, by its entry; 0 at the root of a route.
fn slot_of(f: usize, entry: usize) -> usize
    requires { entry ≤ 1024 }
    ensures root { f ≡ 0 → result ≡ 0 }
    ensures funclet { (f ≡ 0 → ⊥) → result ≡ entry + 1 }
{
    if f == 0 {
        return 0;
    }
    entry + 1
}

// Stores node i: the first of its copies, its entry and its blocks.
fn store_node(
    i: usize,
    base: usize,
    entry: usize,
    part: &[u64; 16],
    bases: &mut [u16],
    entries: &mut [u16],
    parts: &mut [u64],
)
    requires bases_fit { i < length bases.old }
    requires entries_fit { i < length entries.old }
    requires parts_fit { 16 * i + 16 ≤ length parts.old }
    requires base_small { base < 65536 }
    requires entry_small { entry < 65536 }
    ensures { NodePlaced i base entry part.now bases.old entries.old parts.old bases.new entries.new parts.new }
{
    bases[i] = base as u16;
    entries[i] = entry as u16;
    put_set(parts, i, part);
}
