// Flattened calls.
ghost use Rattle.graph.specs.Transfer.{size};
ghost use Rattle.std.specs.Prelude.{[], ◌<◌};
ghost use Rattle.graph.specs.Edges.{call_at, calls_of};
ghost use Rattle.graph.specs.Adding.{Added};
ghost use Rattle.builder.specs.Code.{image_of};

use crate::code::Code;
use crate::flow::{CALL, FLATTEN, is_call};
use graph::record::CallSite;
use graph::store::Graph;
use graph::store::calls::add_call;

// 'Under Flatten a call counts as Next and is recorded in calls.'
pub fn add_calls(g: &mut Graph, code: &Code<'_>)
    ensures { Added g.old g.new [] [] (calls_of (image_of code.now)) }
{
    if code.image.layout.header.calls != FLATTEN {
        return;
    }
    let n = code.size();
    for p in 0..n {
        add_call_at(g, code, p);
    }
}

// The record of the instruction at p, if it calls.
#[tactic(auto, using(graph::proofs::AddingLaws::call_added, graph::proofs::AddingLaws::added_none), unfolding(graph::specs::Edges::call_at, graph::specs::Transfer::instruction_at))]
fn add_call_at(g: &mut Graph, code: &Code<'_>, p: usize)
    requires p_in { p < size (image_of code.now) }
    ensures { Added g.old g.new [] [] (call_at (image_of code.now) p) }
{
    let i = code.instruction(p);
    if is_call(i.flow) {
        let record = CallSite {
            source: i.address,
            has_target: u64::from(i.flow == CALL),
            target: i.target,
        };
        add_call(g, record);
    }
}
