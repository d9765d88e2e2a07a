// An addition in scratch that is lent: the tries, the instances, the sizes, and then the stores.
ghost use Rattle.std.specs.Prelude.{◌≡◌, ℕ, ◌*◌, ◌≤◌, ◌<◌, length};
ghost use Rattle.image.specs.Refusal.{clear};
ghost use Rattle.image.specs.Image.{routes_in};
ghost use Rattle.image.specs.There.{RoutesThere};
ghost use Rattle.graph.specs.Lent.{held_of};
ghost use Rattle.graph.specs.Error.{check_of};
ghost use Rattle.graph.specs.Search.{Linked, Roomy};
ghost use Rattle.unwind.specs.Stands.{Stands};
ghost use Rattle.unwind.specs.Routed.{TriesIn};
ghost use Rattle.unwind.specs.Placed.{Slots, funclet_at, Named, Entered, Firsts, PlacedAll};
ghost use Rattle.addition.specs.Add.{funclet_check};
ghost use Rattle.unwind.specs.Answers.{Adds, Sized, RoutesChecked};
ghost use Rattle.unwind.specs.Frames.{Frame, Room, Placements};

use crate::add::store::add_placed;
use crate::blocks::hint_blocks;
use crate::hops::Hops;
use crate::node_checks::check_nodes;
use crate::part::{funclet_entries, returning_blocks};
use crate::place::place_nodes;
use crate::sides::{guard_routes, land_ends};
use crate::tries::intern_routes;
use crate::tries::store::Counts;
use graph::error::AddressBuildError;
use graph::reach::link;
use graph::store::Graph;
use image::section::RouteLayout;

// In a frame that has room: the tries, and all that is made of them.
pub fn add_framed(
    g: &mut Graph,
    built: usize,
    s: &[u8],
    y: RouteLayout,
    h: &mut Hops,
    starts: &mut [u16],
    nodes: &mut [u16],
    edges: &mut [u16],
    ends: &mut [u16],
    stack: &mut [u16],
    roots: &mut [u16],
    head: &mut [u16],
    next: &mut [u16],
    bases: &mut [u16],
    heads: &mut [u16],
    parts: &mut [u64],
    guards: &mut [u64],
    landings: &mut [u16],
    exits: &mut [u16],
) -> Result<(), AddressBuildError>
    requires checked { RoutesChecked (held_of g.old) built (routes_in s.now y) }
    requires there { RoutesThere s.now y }
    requires frame { Frame y (held_of g.old).graph starts.old nodes.old edges.old ends.old stack.old roots.old head.old next.old bases.old heads.old parts.old guards.old landings.old exits.old }
    ensures { Adds (routes_in s.now y) g.old g.new h.old h.new result }
{
    let stored = intern_routes(s, y, starts, nodes, edges, ends, stack, roots);
    add_tries(
        g, built, stack, s, y, h, nodes, edges, ends, roots, stored, head, next, bases, heads,
        parts, guards, landings, exits,
    )
}

// Tries that stand: the checks of their nodes, and then the instances.
fn add_tries(
    g: &mut Graph,
    built: usize,
    hints: &mut [u16],
    s: &[u8],
    y: RouteLayout,
    h: &mut Hops,
    nodes: &[u16],
    edges: &[u16],
    ends: &[u16],
    roots: &[u16],
    stored: Counts,
    head: &mut [u16],
    next: &mut [u16],
    bases: &mut [u16],
    heads: &mut [u16],
    parts: &mut [u64],
    guards: &mut [u64],
    landings: &mut [u16],
    exits: &mut [u16],
) -> Result<(), AddressBuildError>
    requires checked { RoutesChecked (held_of g.old) built (routes_in s.now y) }
    requires tries { TriesIn (routes_in s.now y) nodes.now edges.now ends.now roots.now stored }
    requires room { Room (held_of g.old).graph (routes_in s.now y) edges.now ends.now head.old next.old bases.old heads.old parts.old guards.old landings.old exits.old stored }
    requires there { RoutesThere s.now y }
    requires hints_fit { stored.nodes ≤ length hints.old }
    ensures { Adds (routes_in s.now y) g.old g.new h.old h.new result }
{
    let n = stored.nodes;
    hint_blocks(g, built, hints);
    check_nodes(g, built, hints, s, y, nodes, ends, n, heads)?;
    link(g, head, next);
    place(g, s, y, nodes, n, head, next, bases, heads, parts, exits)?;
    add_instances(
        g, built, hints, s, y, h, nodes, edges, ends, roots, stored, head, next, bases, heads,
        parts, guards, landings, exits,
    )
}

// The instances of the n nodes; 18 where with their copies there are too many blocks.
fn place(
    g: &Graph,
    s: &[u8],
    y: RouteLayout,
    nodes: &[u16],
    n: usize,
    head: &[u16],
    next: &[u16],
    bases: &mut [u16],
    heads: &mut [u16],
    parts: &mut [u64],
    firsts: &mut [u16],
) -> Result<(), AddressBuildError>
    requires stands { Stands (held_of g.now).graph }
    requires roomy { Roomy (held_of g.now).graph head.now next.now }
    requires linked { Linked (held_of g.now).graph head.now next.now 0 }
    requires leads { (i : ℕ) → i < n → funclet_check (held_of g.now).graph (funclet_at (routes_in s.now y) nodes.now i) ≡ clear }
    requires slots { Slots n bases.old heads.old parts.old }
    requires firsts { Firsts (held_of g.now).graph (routes_in s.now y) nodes.now firsts.old 0 }
    requires few { n ≤ 544 }
    requires nodes_fit { 6 * n ≤ length nodes.now }
    requires named { Named (routes_in s.now y) nodes.now n }
    requires entered { Entered (held_of g.now).graph (routes_in s.now y) nodes.now heads.old n }
    ensures { PlacedAll (held_of g.now).graph (routes_in s.now y) nodes.now n bases.new heads.new parts.new (check_of result) }
{
    let mut barriers = [0u64; 16];
    funclet_entries(g, s, y, nodes, n, heads, &mut barriers);
    place_nodes(
        g, s, y, nodes, n, head, next, &barriers, bases, heads, parts, firsts,
    )
}

// Instances that are placed: the blocks that return, those that routes guard, and those of handlers. Then no hint is
// asked for, and `hints` is room for a list of nodes.
fn add_instances(
    g: &mut Graph,
    built: usize,
    hints: &mut [u16],
    s: &[u8],
    y: RouteLayout,
    h: &mut Hops,
    nodes: &[u16],
    edges: &[u16],
    ends: &[u16],
    roots: &[u16],
    stored: Counts,
    head: &[u16],
    next: &[u16],
    bases: &[u16],
    heads: &[u16],
    parts: &[u64],
    guards: &mut [u64],
    landings: &mut [u16],
    exits: &mut [u16],
) -> Result<(), AddressBuildError>
    requires checked { RoutesChecked (held_of g.old) built (routes_in s.now y) }
    requires placements { Placements (held_of g.old).graph (routes_in s.now y) nodes.now edges.now ends.now roots.now head.now next.now bases.now heads.now parts.now guards.old landings.old exits.old stored }
    requires there { RoutesThere s.now y }
    requires hints_fit { stored.nodes ≤ length hints.old }
    ensures { Sized (routes_in s.now y) g.old g.new h.old h.new result }
{
    let mut returners = [0u64; 16];
    returning_blocks(g, head, next, &mut returners);
    guard_routes(g, built, s, y, guards);
    land_ends(g, built, hints, s, y, ends, stored.ends, landings);
    add_placed(
        g, s, y, h, nodes, edges, ends, roots, head, next, bases, heads, parts, &returners, guards,
        landings, stored, hints, exits,
    )
}
