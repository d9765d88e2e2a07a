// The hops out of the blocks that stood before, block by block.
ghost use Rattle.std.specs.Prelude.{[], ◌++◌, List, ◌≡◌, ◌+◌, ◌*◌, ◌≤◌, ◌<◌, min, length};
ghost use Rattle.image.specs.Image.{routes_in};
ghost use Rattle.image.specs.There.{RoutesThere};
ghost use Rattle.graph.specs.Fold.{flat};
ghost use Rattle.addition.specs.Ways.{Hop};
ghost use Rattle.unwind.specs.Routed.{TriesIn};
ghost use Rattle.unwind.specs.Placed.{returns_in};
ghost use Rattle.unwind.specs.Lent.{Roomy, block_hops};
ghost use Rattle.unwind.specs.Members.{BlockSets};
ghost use Rattle.unwind.specs.Blockwise.{Ready};

use crate::emit::alike::{goes_on, is_worth, mark_turns};
use crate::emit::block::gather_block;
use crate::emit::busy::{busy_in, guarded_in, has_block, original_nodes, word_end};
use crate::emit::sink::Sink;
use crate::tries::store::Counts;
use image::section::RouteLayout;

// Those of the first `blocks` blocks, of each that has a way out, into a sink that has none. `originals` is room for a list
// of nodes.
pub fn emit_blocks<V: Sink>(
    sink: &mut V,
    s: &[u8],
    y: RouteLayout,
    nodes: &[u16],
    edges: &[u16],
    ends: &[u16],
    heads: &[u16],
    landings: &[u16],
    roots: &[u16],
    guards: &[u64],
    bases: &[u16],
    parts: &[u64],
    returners: &[u64; 16],
    stored: Counts,
    blocks: usize,
    originals: &mut [u16],
    exits: &mut [u16],
)
    requires tries { TriesIn (routes_in s.now y) nodes.now edges.now ends.now roots.now stored }
    requires few { blocks ≤ 1024 }
    requires roomy { Roomy edges.now ends.now exits.old }
    requires sets { BlockSets guards.now (returns_in parts.now returners.now) blocks (length (routes_in s.now y).routes) stored.nodes }
    requires there { RoutesThere s.now y }
    requires heads_fit { stored.nodes ≤ length heads.now }
    requires landings_fit { stored.ends ≤ length landings.now }
    requires bases_fit { stored.nodes ≤ length bases.now }
    requires originals_fit { stored.nodes ≤ length originals.old }
    requires start { V.holds (routes_in s.now y) 0 [] sink.old sink.old }
    requires fits { (more : List Hop) × V.fits (flat (block_hops (routes_in s.now y) nodes.now edges.now ends.now heads.now landings.now roots.now guards.now bases.now (returns_in parts.now returners.now) stored) blocks ++ more) }
    ensures holds { V.holds (routes_in s.now y) blocks (flat (block_hops (routes_in s.now y) nodes.now edges.now ends.now heads.now landings.now roots.now guards.now bases.now (returns_in parts.now returners.now) stored) blocks) sink.old sink.new }
    ensures long { length exits.new ≡ length exits.old }
{
    let routes = y.routes.count as usize;
    let worth = is_worth(stored.nodes, landings, stored.ends);
    let mut turns = [0u64; 16];
    if worth {
        mark_turns(
            guards,
            routes,
            parts,
            returners,
            stored.nodes,
            blocks,
            &mut turns,
        );
    }
    let words = (blocks + 63) / 64;
    for w in 0..words {
        emit_word(
            sink, s, y, nodes, edges, ends, heads, landings, roots, guards, bases, parts,
            returners, stored, blocks, worth, &turns, w, originals, exits,
        );
    }
}

// Those of the blocks of word w, behind those of the blocks before.
fn emit_word<V: Sink>(
    sink: &mut V,
    s: &[u8],
    y: RouteLayout,
    nodes: &[u16],
    edges: &[u16],
    ends: &[u16],
    heads: &[u16],
    landings: &[u16],
    roots: &[u16],
    guards: &[u64],
    bases: &[u16],
    parts: &[u64],
    returners: &[u64; 16],
    stored: Counts,
    blocks: usize,
    worth: bool,
    turns: &[u64; 16],
    w: usize,
    originals: &mut [u16],
    exits: &mut [u16],
)
    requires ready { Ready s.now y nodes.now edges.now ends.now heads.now landings.now roots.now guards.now bases.now parts.now returners.now stored blocks originals.old exits.old worth turns.now }
    requires word { 64 * w < blocks }
    requires held { (old : V) × V.holds (routes_in s.now y) (64 * w) (flat (block_hops (routes_in s.now y) nodes.now edges.now ends.now heads.now landings.now roots.now guards.now bases.now (returns_in parts.now returners.now) stored) (64 * w)) old sink.old }
    requires fits { (more : List Hop) × V.fits (flat (block_hops (routes_in s.now y) nodes.now edges.now ends.now heads.now landings.now roots.now guards.now bases.now (returns_in parts.now returners.now) stored) blocks ++ more) }
    ensures { (old : V) → V.holds (routes_in s.now y) (64 * w) (flat (block_hops (routes_in s.now y) nodes.now edges.now ends.now heads.now landings.now roots.now guards.now bases.now (returns_in parts.now returners.now) stored) (64 * w)) old sink.old → V.holds (routes_in s.now y) (min (64 * w + 64) blocks) (flat (block_hops (routes_in s.now y) nodes.now edges.now ends.now heads.now landings.now roots.now guards.now bases.now (returns_in parts.now returners.now) stored) (min (64 * w + 64) blocks)) old sink.new }
{
    let routes = y.routes.count as usize;
    let guarded = guarded_in(guards, routes, w);
    let listed = original_nodes(bases, parts, returners, stored.nodes, w, originals);
    let busy = busy_in(guarded, parts, returners, originals, listed, w);
    if busy == 0 {
        return;
    }
    let past = word_end(w, blocks);
    let mut last = 1024;
    let mut n = 0;
    for b in 64 * w..past {
        if has_block(busy, b) {
            if !goes_on(worth, turns, last, b) {
                n = gather_block(
                    s, y, nodes, edges, ends, heads, landings, roots, guards, guarded, bases,
                    parts, returners, originals, listed, stored, b, exits,
                );
            }
            last = b;
            sink.take(b, exits, n);
        }
    }
}
