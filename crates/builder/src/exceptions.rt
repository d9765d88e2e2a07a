// The exception edges of handlers, which mode 0 adds: from each protected instruction that keeps its own, to the handler's entry.
ghost use Rattle.std.specs.Prelude.{cond, true, [], ◌≡◌, ◌<◌, length};
ghost use Rattle.image.specs.Refusal.{clear};
ghost use Rattle.graph.specs.Flow.{Role, From};
ghost use Rattle.graph.specs.Transfer.{size, instruction_at};
ghost use Rattle.graph.specs.Blocks.{block_at};
ghost use Rattle.graph.specs.Build.{handler_check};
ghost use Rattle.graph.specs.Edges.{resolved, transfer_edges, exception_edges};
ghost use Rattle.graph.specs.Adding.{Added};
ghost use Rattle.builder.specs.Code.{image_of};
ghost use Rattle.builder.specs.Slots.{transfer_in};
ghost use Rattle.builder.specs.Emit.{handler_edges};

use crate::code::Numbered;
use crate::edges::{block_of, edge_between};
use crate::ranges::range_check;
use crate::regions::block_at;
use crate::roles::EdgeRole;
use crate::transfer::{Origin, Transfer};
use graph::store::Graph;
use graph::store::edges::add_edge;

// The exception edges of all handlers; the other modes add none.
#[tactic(auto, using(crate::proofs::ExceptionLaws::other_modes_add))]
pub fn add_exception_edges(g: &mut Graph, numbered: &Numbered<'_>)
    ensures { Added g.old g.new (exception_edges (image_of numbered.now.code)) [] [] }
{
    if numbered.code.image.layout.header.mode != 0 {
        return;
    }
    let n = numbered.code.handler_count();
    for h in 0..n {
        add_handler_edges(g, numbered, h);
    }
}

// The edges of what handler h protects.
fn add_handler_edges(g: &mut Graph, numbered: &Numbered<'_>, h: usize)
    requires h_in { h < length (image_of numbered.now.code).handlers }
    requires checked { handler_check (image_of numbered.now.code) h ≡ clear }
    ensures { Added g.old g.new (handler_edges (image_of numbered.now.code) h) [] [] }
{
    let own = numbered.code.handler(h);
    let found = range_check(&numbered.code, own.start, own.end);
    let Ok(range) = found else {
        return;
    };
    let first = range.first;
    let past = range.past;
    let entry = own.entry;
    let to = block_at(numbered, entry);
    let x = unwind_transfer(h, entry);
    for p in first..past {
        add_if_kept(g, numbered, p, to, x);
    }
}

// The transfer to handler h, which is entered at `entry`.
fn unwind_transfer(h: usize, entry: u64) -> Transfer
    ensures { transfer_in result ≡ record { role = Role.unwind; from = From.named; target = entry; number = h; key = 0 } }
{
    Transfer {
        role: EdgeRole::Unwind,
        from: Origin::Named,
        target: entry,
        number: h as u64,
        key: 0,
    }
}

// The edge to block `to` of a transfer of the instruction at p, where that one keeps its exception edge.
fn add_if_kept(g: &mut Graph, numbered: &Numbered<'_>, p: usize, to: u64, x: Transfer)
    requires p_in { p < size (image_of numbered.now.code) }
    requires resolved { resolved (image_of numbered.now.code) (transfer_in x) ≡ true }
    requires to { to ≡ block_at (image_of numbered.now.code) x.target }
    ensures { Added g.old g.new (cond (instruction_at (image_of numbered.now.code) p).keeps (transfer_edges (image_of numbered.now.code) p (transfer_in x)) []) [] [] }
{
    let i = numbered.code.instruction(p);
    if i.keeps {
        add_edge(
            g,
            edge_between(block_of(numbered.blocks, p), to, i.address, x),
        );
    }
}
