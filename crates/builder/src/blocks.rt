// The table and its blocks, the runs between leaders: stored in order, and numbered by position. `populate_blocks`.
ghost use Rattle.std.specs.Prelude.{◌≡◌, ℕ, suc, ◌+◌, ◌≤◌, ◌<◌, length, get_or};
ghost use Rattle.image.specs.Image.{Image};
ghost use Rattle.graph.specs.Lent.{held_of};
ghost use Rattle.graph.specs.Stored.{Stored};
ghost use Rattle.graph.specs.Adding.{with_table, with_blocks};
ghost use Rattle.graph.specs.Transfer.{table_entry, size, table_of};
ghost use Rattle.graph.specs.Blocks.{first_of, block_of, block_end, blocks_of};
ghost use Rattle.builder.specs.Code.{image_of};
ghost use Rattle.builder.specs.Marks.{Leading};

use crate::code::Code;
use crate::edges::is_terminator;
use graph::record::{Block, TableEntry};
use graph::store::Graph;
use graph::store::blocks::add_block;
use graph::store::table::add_entry;
use image::record::Instruction;

// The instruction table, as the graph keeps it.
pub fn store_table(g: &mut Graph, code: &Code<'_>)
    ensures { Stored g.old g.new (with_table (held_of g.old) (table_of (image_of code.now))) }
{
    let n = code.size();
    for p in 0..n {
        add_entry(g, table_entry(code.instruction(p)));
    }
}

#[tactic(auto, unfolding(graph::specs::Transfer::table_entry))]
fn table_entry(i: Instruction) -> TableEntry
    ensures { result ≡ table_entry i }
{
    TableEntry {
        address: i.address,
        end: i.end,
        has_end: u64::from(i.has_end),
        keeps: u64::from(i.keeps),
        flow: i.flow,
    }
}

// The blocks of a table of n instructions whose leaders are marked; without an instruction, an empty one.
pub fn store_blocks(g: &mut Graph, marks: &[bool; 512], n: usize)
    requires { n ≤ 512 }
    ensures { (m : Image) → size m ≡ n → Leading m marks.now → Stored g.old g.new (with_blocks (held_of g.old) (blocks_of m)) }
{
    if n == 0 {
        add_block(g, Block { first: 0, count: 0 });
        return;
    }
    let mut first = 0;
    for p in 0..n {
        first = store_block(g, marks, n, first, p);
    }
}

// The block that ends at p, if one does, and where the next instruction's block begins.
fn store_block(g: &mut Graph, marks: &[bool; 512], n: usize, first: usize, p: usize) -> usize
    requires n_most { n ≤ 512 }
    requires p_in { p < n }
    requires first { first ≤ p }
    ensures within { result ≤ p + 1 }
    ensures stored { (m : Image) → size m ≡ n → Leading m marks.now → first ≡ first_of m p → Stored g.old g.new (with_blocks (held_of g.old) (block_end m p)) }
    ensures first { (m : Image) → size m ≡ n → Leading m marks.now → first ≡ first_of m p → suc p < n → result ≡ first_of m (suc p) }
{
    if !is_terminator(marks, n, p) {
        return first;
    }
    let behind = p + 1;
    let count = behind - first;
    add_block(
        g,
        Block {
            first: first as u64,
            count: count as u64,
        },
    );
    behind
}

// The number of the block of each position. That of the first is 0 before.
pub fn number_blocks(numbers: &mut [u16], marks: &[bool; 512], n: usize)
    requires n_most { n ≤ 512 }
    requires room { n ≤ length numbers.old }
    requires first { get_or numbers.old 0 0 ≡ 0 }
    ensures { (m : Image) → size m ≡ n → Leading m marks.now → (p : ℕ) → p < n → get_or numbers.new p 0 ≡ block_of m p }
{
    let mut block: u16 = 0;
    for p in 1..n {
        block += u16::from(marks[p]);
        numbers[p] = block;
    }
}
