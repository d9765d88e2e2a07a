// The ways out of one block, gathered from the nodes of the trie into sorted scratch.
ghost use Rattle.std.specs.Prelude.{◌≡◌, ℕ, ◌+◌, ◌*◌, ◌≤◌, ◌<◌, length};
ghost use Rattle.image.specs.Image.{routes_in};
ghost use Rattle.image.specs.There.{RoutesThere};
ghost use Rattle.unwind.specs.Nodes.{record_in, branch_in, BranchSmall, NodeFits};
ghost use Rattle.unwind.specs.Entries.{Ordered};
ghost use Rattle.unwind.specs.Gather.{EntryTo, end_number, end_exits, record_exits, Gathers, branch_exits, NodeThere};

use crate::emit::entries::put_entry;
use crate::sides::STAY;
use crate::tries::store::{Branch, branch_in, node_in, number_in};
use image::section::RouteLayout;

// Those of node i, out of block b: `heads` has the entry of each node, `landings` where each end lands.
pub fn gather_node(
    s: &[u8],
    y: RouteLayout,
    nodes: &[u16],
    edges: &[u16],
    ends: &[u16],
    heads: &[u16],
    landings: &[u16],
    i: usize,
    b: usize,
    exits: &mut [u16],
    held: usize,
) -> usize
    requires ordered { Ordered (routes_in s.now y) exits.old held }
    requires block { b < 65536 }
    requires room { 3 * (held + ((record_in nodes.now i).edges + (record_in nodes.now i).ends)) ≤ length exits.old }
    requires there { RoutesThere s.now y }
    requires fits { NodeFits edges.now ends.now (record_in nodes.now i) }
    requires node { NodeThere nodes.now edges.now heads.now landings.now i }
    ensures { Gathers (routes_in s.now y) b exits.old held (record_exits (routes_in s.now y) b edges.now ends.now heads.now landings.now (record_in nodes.now i)) exits.new result }
{
    let node = node_in(nodes, i);
    let to_node = |_: usize, e: Branch| number_in(heads, e.what);
    let n = gather_branches(
        s,
        y,
        edges,
        node.first_edge,
        node.edges,
        exits,
        held,
        to_node,
    );
    let to_end = |k: usize, _: Branch| end_number(landings, k, b);
    gather_branches(s, y, ends, node.first_end, node.ends, exits, n, to_end)
}

// Those of the `count` branches from `first` on, each to the end that `end_of` gives it.
fn gather_branches<F: Fn(usize, Branch) -> usize>(
    s: &[u8],
    y: RouteLayout,
    list: &[u16],
    first: usize,
    count: usize,
    exits: &mut [u16],
    held: usize,
    end_of: F,
) -> usize
    requires ordered { Ordered (routes_in s.now y) exits.old held }
    requires room { 3 * (held + count) ≤ length exits.old }
    requires there { RoutesThere s.now y }
    requires list { 3 * (first + count) ≤ length list.now }
    requires known { (k : ℕ) → k < count → F.pre end_of (first + k) (branch_in list.now (first + k)) }
    requires small { (k r : ℕ) → k < count → F.post end_of (first + k) (branch_in list.now (first + k)) r → r < 65536 }
    ensures ordered { Ordered (routes_in s.now y) exits.new result }
    ensures most { result ≤ held + count }
    ensures gathers { (f : ℕ → ℕ) → ((k r : ℕ) → k < count → F.post end_of (first + k) (branch_in list.now (first + k)) r → r ≡ f k) → (b : ℕ) → Gathers (routes_in s.now y) b exits.old held (branch_exits (routes_in s.now y) b list.now f first count) exits.new result }
{
    let mut n = held;
    for k in 0..count {
        let e = branch_in(list, first + k);
        let end = end_of(first + k, e);
        n = put_entry(s, y, exits, n, entry_to(e, end));
    }
    n
}

// The number of end k of the trie, out of block b.
pub fn end_number(landings: &[u16], k: usize, b: usize) -> usize
    requires { (b < 65536) × (k < length landings.now) }
    ensures { (result ≡ end_number b landings.now k) × (result < 65536) }
{
    let l = number_in(landings, k);
    if l == STAY {
        return b;
    }
    l
}

// With the calls of e. No calls stand nowhere, so that the numbers of an entry hang on what it says alone.
fn entry_to(e: Branch, end: usize) -> Branch
    requires { BranchSmall e × (end < 65536) }
    ensures { EntryTo e end result }
{
    if e.calls == 0 {
        return Branch {
            step: 0,
            calls: 0,
            what: end,
        };
    }
    Branch {
        step: e.step,
        calls: e.calls,
        what: end,
    }
}
