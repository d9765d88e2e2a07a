// The last stage of an addition: instances that are placed, 19 and 20, and then the stores.
ghost use Rattle.std.specs.Prelude.{◌≡◌, ◌&&◌, ◌+◌, ◌≤◌, leb, length};
ghost use Rattle.image.specs.Refusal.{refusal, clear, ◌then◌, unless};
ghost use Rattle.image.specs.Image.{routes_in};
ghost use Rattle.image.specs.Deal.{routes_of};
ghost use Rattle.image.specs.There.{RoutesThere};
ghost use Rattle.graph.specs.Lent.{held_of};
ghost use Rattle.graph.specs.Error.{check_of};
ghost use Rattle.graph.specs.Answers.{Laid};
ghost use Rattle.unwind.specs.Placed.{returns_in};
ghost use Rattle.unwind.specs.HopWords.{HopsLaid};
ghost use Rattle.addition.specs.Add.{addition, size_check};
ghost use Rattle.unwind.specs.Answers.{Sized};
ghost use Rattle.unwind.specs.Frames.{AtHand};

use crate::add::most::most_ways;
use crate::clones::{add_clone_blocks, add_clone_edges, clone_edge_count};
use crate::emit::all::{add_hops, count_hops};
use crate::emit::count::Sizes;
use crate::hops::{HOP_MOST, Hops, LIST_MOST};
use crate::tries::store::Counts;
use crate::wants::add_route_edges;
use graph::error::AddressBuildError;
use graph::store::Graph;
use graph::store::blocks::block_count;
use graph::store::edges::{MOST_EDGES, edge_count};
use image::section::RouteLayout;

// All is decided before the first store.
pub fn add_placed(
    g: &mut Graph,
    s: &[u8],
    y: RouteLayout,
    h: &mut Hops,
    nodes: &[u16],
    edges: &[u16],
    ends: &[u16],
    roots: &[u16],
    head: &[u16],
    next: &[u16],
    bases: &[u16],
    heads: &[u16],
    parts: &[u64],
    returners: &[u64; 16],
    guards: &[u64],
    landings: &[u16],
    stored: Counts,
    originals: &mut [u16],
    exits: &mut [u16],
) -> Result<(), AddressBuildError>
    requires at_hand { AtHand (held_of g.old) (routes_in s.now y) nodes.now edges.now ends.now roots.now head.now next.now bases.now heads.now parts.now (returns_in parts.now returners.now) guards.now landings.now exits.old stored }
    requires there { RoutesThere s.now y }
    requires originals_fit { stored.nodes ≤ length originals.old }
    ensures { Sized (routes_in s.now y) g.old g.new h.old h.new result }
{
    check_sizes(
        g, s, y, nodes, edges, ends, roots, head, next, bases, heads, parts, returners, guards,
        landings, stored, originals, exits,
    )?;
    store_addition(
        g, s, y, h, nodes, edges, ends, roots, head, next, bases, heads, parts, returners, guards,
        landings, stored, originals, exits,
    );
    Ok(())
}

// 19 and 20 of what is to be stored; 18 let it pass. Hops are counted where the most that there can be would be too many.
#[tactic(auto, using(crate::proofs::RouteChecks::counted))]
fn check_sizes(
    g: &Graph,
    s: &[u8],
    y: RouteLayout,
    nodes: &[u16],
    edges: &[u16],
    ends: &[u16],
    roots: &[u16],
    head: &[u16],
    next: &[u16],
    bases: &[u16],
    heads: &[u16],
    parts: &[u64],
    returners: &[u64; 16],
    guards: &[u64],
    landings: &[u16],
    stored: Counts,
    originals: &mut [u16],
    exits: &mut [u16],
) -> Result<(), AddressBuildError>
    requires at_hand { AtHand (held_of g.now) (routes_in s.now y) nodes.now edges.now ends.now roots.now head.now next.now bases.now heads.now parts.now (returns_in parts.now returners.now) guards.now landings.now exits.old stored }
    requires there { RoutesThere s.now y }
    requires originals_fit { stored.nodes ≤ length originals.old }
    ensures { check_of result ≡ size_check (addition (held_of g.now).graph (routes_of (routes_in s.now y))) }
{
    let copies = clone_edge_count(g, head, next, bases, parts, stored.nodes);
    let most = most_ways(
        nodes,
        roots,
        guards,
        y.routes.count as usize,
        parts,
        returners,
        stored,
        block_count(g),
    );
    let bound = Sizes {
        hops: most,
        lists: most,
        blocks: most,
    };
    if check_counts(g, copies, bound).is_ok() {
        return Ok(());
    }
    let sizes = count_hops(
        g, s, y, nodes, edges, ends, heads, landings, roots, guards, bases, parts, returners,
        stored, originals, exits,
    );
    check_counts(g, copies, sizes)
}

// So many copies of edges, and hops of these sizes, beside the edges that there are.
#[tactic(auto, using(crate::proofs::StoreLaws::hops_over, crate::proofs::StoreLaws::edges_held))]
fn check_counts(g: &Graph, copies: usize, sizes: Sizes) -> Result<(), AddressBuildError>
    ensures { check_of result ≡ (unless (leb (length (held_of g.now).graph.edges + copies + sizes.blocks) 4096) (refusal 19 0 0) then unless (leb sizes.hops 2048 && leb sizes.lists 4096) (refusal 20 0 0)) }
{
    let left = MOST_EDGES - edge_count(g);
    if left < copies || left - copies < sizes.blocks {
        return Err(AddressBuildError::TooManyEdges);
    }
    if HOP_MOST < sizes.hops || LIST_MOST < sizes.lists {
        return Err(AddressBuildError::TooManyHops);
    }
    Ok(())
}

// An addition that has room: the hops, the copies of edges before those of blocks, and the route edges.
fn store_addition(
    g: &mut Graph,
    s: &[u8],
    y: RouteLayout,
    h: &mut Hops,
    nodes: &[u16],
    edges: &[u16],
    ends: &[u16],
    roots: &[u16],
    head: &[u16],
    next: &[u16],
    bases: &[u16],
    heads: &[u16],
    parts: &[u64],
    returners: &[u64; 16],
    guards: &[u64],
    landings: &[u16],
    stored: Counts,
    originals: &mut [u16],
    exits: &mut [u16],
)
    requires at_hand { AtHand (held_of g.old) (routes_in s.now y) nodes.now edges.now ends.now roots.now head.now next.now bases.now heads.now parts.now (returns_in parts.now returners.now) guards.now landings.now exits.old stored }
    requires sizes { size_check (addition (held_of g.old).graph (routes_of (routes_in s.now y))) ≡ clear }
    requires there { RoutesThere s.now y }
    requires originals_fit { stored.nodes ≤ length originals.old }
    ensures graph { Laid g.old g.new (addition (held_of g.old).graph (routes_of (routes_in s.now y))).graph }
    ensures hops { HopsLaid (routes_in s.now y) h.old h.new (addition (held_of g.old).graph (routes_of (routes_in s.now y))).hops }
{
    let blocks = block_count(g);
    add_hops(
        g, h, s, y, nodes, edges, ends, heads, landings, roots, guards, bases, parts, returners,
        stored, originals, exits,
    );
    add_clone_edges(g, head, next, bases, parts, stored.nodes);
    add_clone_blocks(g, bases, parts, stored.nodes);
    add_route_edges(
        g, h, s, y, nodes, edges, ends, heads, landings, roots, guards, bases, parts, returners,
        stored, blocks,
    );
}
