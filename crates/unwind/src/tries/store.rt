// The nodes of the trie, and their edges and ends, as numbers in slices: six for a node, three for an edge or an end.
// What a function `_in` reads is there, by its contract; one `_at` reads 0 past the end.
ghost use Rattle.std.specs.Prelude.{◌≡◌, ◌+◌, ◌*◌, ◌≤◌, ◌<◌, length, get_or};
ghost use Rattle.unwind.specs.Nodes.{NodeRead, BranchRead, NodeSmall, BranchSmall, NodePut, BranchPut, ThreePut};

// The step that names the funclet, plus 1, or 0 at the root of a route; the route whose interning created the node; where
// its edges and ends stand.
#[derive(Clone, Copy)]
pub struct NodeRecord {
    pub funclet: usize,
    pub route: usize,
    pub first_edge: usize,
    pub edges: usize,
    pub first_end: usize,
    pub ends: usize,
}

// An edge or an end: the calls before it, which are consecutive steps, and the node after them, or the path whose end it is.
#[derive(Clone, Copy)]
pub struct Branch {
    pub step: usize,
    pub calls: usize,
    pub what: usize,
}

// How many nodes, edges and ends are stored.
#[derive(Clone, Copy)]
pub struct Counts {
    pub nodes: usize,
    pub edges: usize,
    pub ends: usize,
}

// Node i, one of those that there is room for.
pub fn node_in(nodes: &[u16], i: usize) -> NodeRecord
    requires { 6 * i + 6 ≤ length nodes.now }
    ensures { NodeRead nodes.now i result }
{
    let at = 6 * i;
    NodeRecord {
        funclet: number_in(nodes, at),
        route: number_in(nodes, at + 1),
        first_edge: number_in(nodes, at + 2),
        edges: number_in(nodes, at + 3),
        first_end: number_in(nodes, at + 4),
        ends: number_in(nodes, at + 5),
    }
}

// Edge or end k, likewise.
pub fn branch_in(list: &[u16], k: usize) -> Branch
    requires { 3 * k + 3 ≤ length list.now }
    ensures { BranchRead list.now k result }
{
    let at = 3 * k;
    Branch {
        step: number_in(list, at),
        calls: number_in(list, at + 1),
        what: number_in(list, at + 2),
    }
}

// Number k of a slice that has it.
pub fn number_in(list: &[u16], k: usize) -> usize
    requires { k < length list.now }
    ensures { (result ≡ get_or list.now k 0) × (result < 65536) }
{
    list[k] as usize
}

// Number k of a slice, and 0 past the end.
pub fn number_at(list: &[u16], k: usize) -> usize
    ensures { (result ≡ get_or list.now k 0) × (result < 65536) }
{
    if k < list.len() { list[k] as usize } else { 0 }
}

pub fn put_node(nodes: &mut [u16], i: usize, x: NodeRecord)
    requires { (6 * i + 6 ≤ length nodes.old) × NodeSmall x }
    ensures { NodePut nodes.old i x nodes.new }
{
    let at = 6 * i;
    put_three(nodes, at, x.funclet, x.route, x.first_edge);
    put_three(nodes, at + 3, x.edges, x.first_end, x.ends);
}

pub fn put_branch(list: &mut [u16], k: usize, b: Branch)
    requires { (3 * k + 3 ≤ length list.old) × BranchSmall b }
    ensures { BranchPut list.old k b list.new }
{
    put_three(list, 3 * k, b.step, b.calls, b.what);
}

fn put_three(list: &mut [u16], at: usize, a: usize, b: usize, c: usize)
    requires { (at + 3 ≤ length list.old) × (a < 65536) × (b < 65536) × (c < 65536) }
    ensures { ThreePut list.old at a b c list.new }
{
    list[at] = a as u16;
    list[at + 1] = b as u16;
    list[at + 2] = c as u16;
}
