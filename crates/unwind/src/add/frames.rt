// The frames of an addition: scratch of five sizes, zeroed for each call, so that a small addition does not pay for a large one.
ghost use Rattle.std.specs.Prelude.{◌≡◌, true, ◌≤◌};
ghost use Rattle.image.specs.Image.{routes_in};
ghost use Rattle.image.specs.There.{RoutesThere};
ghost use Rattle.graph.specs.Lent.{held_of};
ghost use Rattle.unwind.specs.Answers.{Adds, RoutesChecked};
ghost use Rattle.unwind.specs.Frames.{Few, Sizes, Small};

use crate::add::run::add_framed;
use crate::hops::Hops;
use graph::error::AddressBuildError;
use graph::store::Graph;
use graph::store::blocks::block_count;
use graph::store::edges::edge_count;
use image::section::RouteLayout;

// Routes whose own checks are clear, in the smallest frame that has room for them.
pub fn add_checked(
    g: &mut Graph,
    built: usize,
    s: &[u8],
    y: RouteLayout,
    h: &mut Hops,
) -> Result<(), AddressBuildError>
    requires checked { RoutesChecked (held_of g.old) built (routes_in s.now y) }
    requires there { RoutesThere s.now y }
    ensures { Adds (routes_in s.now y) g.old g.new h.old h.new result }
{
    let small = is_small(g, 64, 256);
    if small && is_few(y, 6, 2, 1) && is_small(g, 16, 32) {
        return add_in::<6, 2, 1, 16, 32, 3, 42, 18, 6, 7, 112, 16, 48>(g, built, s, y, h);
    }
    if small && is_few(y, 32, 16, 4) {
        return add_in::<32, 16, 4, 64, 256, 17, 216, 96, 48, 36, 576, 64, 288>(g, built, s, y, h);
    }
    if small && is_few(y, 64, 32, 8) {
        return add_in::<64, 32, 8, 64, 256, 33, 432, 192, 96, 72, 1152, 128, 576>(
            g, built, s, y, h,
        );
    }
    if is_few(y, 128, 48, 12) {
        return add_in::<128, 48, 12, 1024, 4096, 49, 840, 384, 144, 140, 2240, 192, 1056>(
            g, built, s, y, h,
        );
    }
    add_in::<512, 128, 32, 1024, 4096, 129, 3264, 1536, 384, 544, 8704, 512, 3840>(
        g, built, s, y, h,
    )
}

// Whether a graph has no more than so many blocks and edges.
fn is_small(g: &Graph, blocks: usize, edges: usize) -> bool
    ensures { result ≡ true → Small (held_of g.now).graph blocks edges }
{
    block_count(g) <= blocks && edge_count(g) <= edges
}

// Whether routes have no more than so many steps, paths and routes.
fn is_few(y: RouteLayout, steps: u32, paths: u32, routes: u32) -> bool
    ensures { result ≡ true → Few y steps paths routes }
{
    y.steps.count <= steps && y.paths.count <= paths && y.routes.count <= routes
}

// In scratch of these lengths, for no more than so many steps, paths, routes, blocks and edges. Inlined, a small addition would
// pay for the largest frame.
#[inline(never)]
fn add_in<
    const STEPS: usize,
    const PATHS: usize,
    const ROUTES: usize,
    const BLOCKS: usize,
    const LINKS: usize,
    const STARTS: usize,
    const NODES: usize,
    const EDGES: usize,
    const ENDS: usize,
    const SLOTS: usize,
    const PARTS: usize,
    const GUARDS: usize,
    const EXITS: usize,
>(
    g: &mut Graph,
    built: usize,
    s: &[u8],
    y: RouteLayout,
    h: &mut Hops,
) -> Result<(), AddressBuildError>
    requires sizes { Sizes STEPS PATHS ROUTES BLOCKS STARTS NODES EDGES ENDS SLOTS PARTS GUARDS EXITS }
    requires links_most { LINKS ≤ 4096 }
    requires few { Few y STEPS PATHS ROUTES }
    requires small { Small (held_of g.old).graph BLOCKS LINKS }
    requires checked { RoutesChecked (held_of g.old) built (routes_in s.now y) }
    requires there { RoutesThere s.now y }
    ensures { Adds (routes_in s.now y) g.old g.new h.old h.new result }
{
    let mut starts = [0u16; STARTS];
    let mut nodes = [0u16; NODES];
    let mut edges = [0u16; EDGES];
    let mut ends = [0u16; ENDS];
    let mut stack = [0u16; EDGES];
    let mut roots = [0u16; ROUTES];
    let mut head = [0u16; BLOCKS];
    let mut next = [0u16; LINKS];
    let mut bases = [0u16; SLOTS];
    let mut heads = [0u16; SLOTS];
    let mut parts = [0u64; PARTS];
    let mut guards = [0u64; GUARDS];
    let mut landings = [0u16; PATHS];
    let mut exits = [0u16; EXITS];
    add_framed(
        g,
        built,
        s,
        y,
        h,
        &mut starts,
        &mut nodes,
        &mut edges,
        &mut ends,
        &mut stack,
        &mut roots,
        &mut head,
        &mut next,
        &mut bases,
        &mut heads,
        &mut parts,
        &mut guards,
        &mut landings,
        &mut exits,
    )
}
