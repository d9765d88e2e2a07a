// The checks of the trie's nodes, in creation order: 14 and 17 of the funclet, and then of the handlers at its ends. A node is a number,
// with six numbers in one slice; an end has three in another.
ghost use Rattle.std.specs.Prelude.{◌≡◌, OnOk, List, ℕ, ◌+◌, ◌*◌, ◌≤◌, ◌<◌, length, set};
ghost use Rattle.image.specs.Refusal.{clear};
ghost use Rattle.image.specs.Image.{routes_in};
ghost use Rattle.image.specs.Deal.{end_of};
ghost use Rattle.image.specs.There.{RoutesThere};
ghost use Rattle.graph.specs.Lent.{held_of};
ghost use Rattle.graph.specs.Error.{check_of};
ghost use Rattle.graph.specs.Fold.{checks};
ghost use Rattle.graph.specs.WellFormed.{Built};
ghost use Rattle.unwind.specs.Stands.{Stands};
ghost use Rattle.addition.specs.Trie.{node_at};
ghost use Rattle.unwind.specs.Nodes.{branch_in, path_record, funclet_in, record_in, node_in, nodes_in, EndsThere};
ghost use Rattle.unwind.specs.Placed.{funclet_at, Entered};
ghost use Rattle.addition.specs.Instance.{entry_block};
ghost use Rattle.addition.specs.Add.{funclet_check, end_check, node_check};

use crate::blocks::leading_block;
use crate::routes::{path_of, step_of};
use crate::tries::store::{branch_in, node_in};
use graph::error::AddressBuildError;
use graph::resume::HANDLER;
use graph::store::Graph;
use image::section::RouteLayout;

// The first refusal among those of the n nodes, whatever their edges; where there is none, the entries of their funclets are
// stored.
pub fn check_nodes(
    g: &Graph,
    built: usize,
    hints: &[u16],
    s: &[u8],
    y: RouteLayout,
    nodes: &[u16],
    ends: &[u16],
    n: usize,
    entries: &mut [u16],
) -> Result<(), AddressBuildError>
    requires stands { Stands (held_of g.now).graph }
    requires built { Built (held_of g.now).graph built }
    requires there { RoutesThere s.now y }
    requires ends_there { (i : ℕ) → i < n → EndsThere nodes.now ends.now i }
    requires entries_fit { n ≤ length entries.old }
    ensures check { (edges : List ℕ) → check_of result ≡ checks (λ i. node_check (held_of g.now).graph (node_at (nodes_in (routes_in s.now y) nodes.now edges ends.now n) i)) n }
    ensures enters { OnOk result (Entered (held_of g.now).graph (routes_in s.now y) nodes.now entries.new n) }
{
    for i in 0..n {
        check_node(g, built, hints, s, y, nodes, ends, i, entries)?;
    }
    Ok(())
}

// Node i: the funclet before the ends.
fn check_node(
    g: &Graph,
    built: usize,
    hints: &[u16],
    s: &[u8],
    y: RouteLayout,
    nodes: &[u16],
    ends: &[u16],
    i: usize,
    entries: &mut [u16],
) -> Result<(), AddressBuildError>
    requires stands { Stands (held_of g.now).graph }
    requires built { Built (held_of g.now).graph built }
    requires there { RoutesThere s.now y }
    requires ends_there { EndsThere nodes.now ends.now i }
    requires entries_fit { i < length entries.old }
    ensures check { (edges : List ℕ) → check_of result ≡ node_check (held_of g.now).graph (node_in (routes_in s.now y) edges ends.now (record_in nodes.now i)) }
    ensures entry { OnOk result (entries.new ≡ set entries.old i (entry_block (held_of g.now).graph (funclet_at (routes_in s.now y) nodes.now i))) }
{
    let x = node_in(nodes, i);
    check_funclet(g, built, hints, s, y, x.funclet, i, entries)?;
    check_ends(g, built, hints, s, y, ends, x.first_end, x.ends)
}

// The funclet that step f - 1 names, whose entry is stored as that of node i unless it is refused; the root of a route, with 0, has none.
fn check_funclet(
    g: &Graph,
    built: usize,
    hints: &[u16],
    s: &[u8],
    y: RouteLayout,
    f: usize,
    i: usize,
    entries: &mut [u16],
) -> Result<(), AddressBuildError>
    requires stands { Stands (held_of g.now).graph }
    requires built { Built (held_of g.now).graph built }
    requires there { RoutesThere s.now y }
    requires entries_fit { i < length entries.old }
    ensures check { check_of result ≡ funclet_check (held_of g.now).graph (funclet_in (routes_in s.now y) f) }
    ensures entry { OnOk result (entries.new ≡ set entries.old i (entry_block (held_of g.now).graph (funclet_in (routes_in s.now y) f))) }
{
    if f == 0 {
        entries[i] = 0;
        return Ok(());
    }
    let a = step_of(s, y, f - 1).value;
    let b = leading_block(g, built, hints, a)?;
    entries[i] = b as u16;
    Ok(())
}

// The n ends from `first` on.
fn check_ends(
    g: &Graph,
    built: usize,
    hints: &[u16],
    s: &[u8],
    y: RouteLayout,
    ends: &[u16],
    first: usize,
    n: usize,
) -> Result<(), AddressBuildError>
    requires stands { Stands (held_of g.now).graph }
    requires built { Built (held_of g.now).graph built }
    requires there { RoutesThere s.now y }
    requires ends_fit { 3 * (first + n) ≤ length ends.now }
    ensures { check_of result ≡ checks (λ k. end_check (held_of g.now).graph (end_of (path_record (routes_in s.now y) (branch_in ends.now (first + k)).what))) n }
{
    for k in 0..n {
        check_end(g, built, hints, s, y, branch_in(ends, first + k).what)?;
    }
    Ok(())
}

// The end of path p.
fn check_end(
    g: &Graph,
    built: usize,
    hints: &[u16],
    s: &[u8],
    y: RouteLayout,
    p: usize,
) -> Result<(), AddressBuildError>
    requires stands { Stands (held_of g.now).graph }
    requires built { Built (held_of g.now).graph built }
    requires there { RoutesThere s.now y }
    ensures { check_of result ≡ end_check (held_of g.now).graph (end_of (path_record (routes_in s.now y) p)) }
{
    let path = path_of(s, y, p);
    if path.end == HANDLER {
        leading_block(g, built, hints, path.handler)?;
    }
    Ok(())
}
