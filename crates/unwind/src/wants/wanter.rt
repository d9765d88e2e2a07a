// Who wants route edges, in order: the routes, out of the blocks that they guard, and then the nodes, out of those from which
// they return.
ghost use Rattle.std.specs.Prelude.{◌≡◌, true, ℕ, ◌+◌, ◌-◌, ◌*◌, ◌≤◌, ◌<◌, length, get_or};
ghost use Rattle.graph.specs.BlockSet.{member, LowestFrom};
ghost use Rattle.unwind.specs.Nodes.{record_in};
ghost use Rattle.unwind.specs.Placed.{returns_in};
ghost use Rattle.unwind.specs.Flags.{Over};
ghost use Rattle.unwind.specs.Wanters.{wanter_of, wanter_set};

use crate::emit::entries::LEAVE;
use crate::tries::store::{node_in, number_in};
use graph::blockset::{digits_from, zeros_of};

// Its node, the route that it wants edges for, and the first copy of the node's blocks, 0 where it has the original ones.
#[derive(Clone, Copy)]
pub struct Wanter {
    pub node: usize,
    pub route: usize,
    pub base: usize,
}

// Wanter k: route k, and behind the routes node by node.
pub fn wanter_of(nodes: &[u16], roots: &[u16], bases: &[u16], routes: usize, k: usize) -> Wanter
    requires { (routes ≤ length roots.now) × (6 * (k - routes) + 6 ≤ length nodes.now) × (k - routes < length bases.now) }
    ensures { result ≡ wanter_of nodes.now roots.now bases.now routes k }
{
    if k < routes {
        return Wanter {
            node: number_in(roots, k),
            route: k,
            base: 0,
        };
    }
    let i = k - routes;
    Wanter {
        node: i,
        route: node_in(nodes, i).route,
        base: number_in(bases, i),
    }
}

// Whether wanter k is a node that wants nothing.
pub fn is_idle(nodes: &[u16], landings: &[u16], routes: usize, k: usize) -> bool
    requires { (6 * (k - routes) + 6 ≤ length nodes.now) × ((record_in nodes.now (k - routes)).first_end + (record_in nodes.now (k - routes)).ends ≤ length landings.now) }
    ensures { result ≡ true → (routes ≤ k) × Over nodes.now landings.now (k - routes) }
{
    if k < routes {
        return false;
    }
    is_over(nodes, landings, k - routes)
}

// Whether node i wants nothing: it has no edges, and all its ends leave.
fn is_over(nodes: &[u16], landings: &[u16], i: usize) -> bool
    requires { (6 * i + 6 ≤ length nodes.now) × ((record_in nodes.now i).first_end + (record_in nodes.now i).ends ≤ length landings.now) }
    ensures { result ≡ true → Over nodes.now landings.now i }
{
    let node = node_in(nodes, i);
    let first = node.first_end;
    let ends = &landings[first..first + node.ends];
    node.edges == 0 && ends.iter().all(|&l| l as usize == LEAVE)
}

// The first of its blocks from `from` on; all are below `past`.
pub fn next_block(
    guards: &[u64],
    parts: &[u64],
    returners: &[u64; 16],
    routes: usize,
    k: usize,
    from: usize,
    past: usize,
) -> Option<usize>
    requires { (past ≤ 1024) × ((b : ℕ) → member (wanter_set guards.now (returns_in parts.now returners.now) routes k) b ≡ true → b < past) × (16 * routes ≤ length guards.now) × (16 * (k - routes) + 16 ≤ length parts.now) }
    ensures { LowestFrom (wanter_set guards.now (returns_in parts.now returners.now) routes k) from result }
{
    if past <= from {
        return None;
    }
    let at = from / 64;
    let first = word_of(guards, parts, returners, routes, k, at);
    let rest = digits_from(first, from % 64);
    if rest != 0 {
        return Some(from + zeros_of(rest));
    }
    let words = (past + 63) / 64;
    for i in at + 1..words {
        let word = word_of(guards, parts, returners, routes, k, i);
        if word != 0 {
            return Some(64 * i + zeros_of(word));
        }
    }
    None
}

// Word j of its blocks.
fn word_of(
    guards: &[u64],
    parts: &[u64],
    returners: &[u64; 16],
    routes: usize,
    k: usize,
    j: usize,
) -> u64
    requires { (16 * routes ≤ length guards.now) × (16 * (k - routes) + 16 ≤ length parts.now) × (j < 16) }
    ensures { result ≡ get_or (wanter_set guards.now (returns_in parts.now returners.now) routes k) j 0 }
{
    if k < routes {
        return guards[16 * k + j];
    }
    parts[16 * (k - routes) + j] & returners[j]
}
