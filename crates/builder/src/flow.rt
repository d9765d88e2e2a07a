// The flows that are asked for by name, and what the image's call policy makes of them.
ghost use Rattle.std.specs.Prelude.{not, ◌≡◌, eqb};
ghost use Rattle.graph.specs.Flow.{Flow, is_call, flow_under};

pub const NEXT: u64 = 0;

pub const RETURN: u64 = 1;

pub const INDIRECT_CALL: u64 = 5;

pub const JUMP: u64 = 6;

pub const CALL: u64 = 8;

pub const EXCEPTIONAL: u64 = 9;

pub const SWITCH: u64 = 12;

// The call policy under which a call counts as Next.
pub const FLATTEN: u64 = 1;

#[tactic(auto, unfolding(graph::specs::Flow::is_call))]
pub fn is_call(flow: u64) -> bool
    ensures { result ≡ is_call flow }
{
    flow == CALL || flow == INDIRECT_CALL
}

// Under Flatten a call counts as Next.
#[tactic(auto, unfolding(graph::specs::Flow::flow_under))]
pub fn flow_under(calls: u64, flow: u64) -> u64
    ensures { result ≡ flow_under calls flow }
{
    if calls == FLATTEN && is_call(flow) {
        NEXT
    } else {
        flow
    }
}

// Whether a flow ends its block under the image's call policy.
pub fn ends_block(calls: u64, flow: u64) -> bool
    ensures { result ≡ not (eqb (flow_under calls flow) Flow.next) }
{
    flow_under(calls, flow) != NEXT
}
