// The transfers of each flow: two slots in a constant table. A Switch has its cases behind its first slot.
ghost use Rattle.std.specs.Prelude.{◌≡◌, ◌≤◌, eqb};
ghost use Rattle.graph.specs.Flow.{From, slots_of};
ghost use Rattle.graph.specs.Transfer.{has_target, slot_transfer, case_transfer};
ghost use Rattle.builder.specs.Slots.{from_of, slot_in, slots_in, transfer_in};

use crate::roles::EdgeRole;
use image::record::{Case, Instruction};

// Where a target comes from: an empty slot makes no transfer, and a computed transfer has no target.
#[derive(Clone, Copy, PartialEq, Eq)]
pub enum Origin {
    Nowhere,
    Computed,
    Named,
    End,
}

// A role, and where its target comes from.
#[derive(Clone, Copy)]
pub struct Slot(pub EdgeRole, pub Origin);

// The first and the second slot of a flow.
#[derive(Clone, Copy)]
pub struct Slots(pub Slot, pub Slot);

// A transfer of an instruction, with what its role carries: a case's index and key, or a call site.
#[derive(Clone, Copy)]
pub struct Transfer {
    pub role: EdgeRole,
    pub from: Origin,
    pub target: u64,
    pub number: u64,
    pub key: u64,
}

const EMPTY: Slot = Slot(EdgeRole::Sequential, Origin::Nowhere);

const NEXT: Slot = Slot(EdgeRole::Sequential, Origin::End);

const NOT_TAKEN: Slot = Slot(EdgeRole::ConditionalFallThrough, Origin::End);

const CONTINUATION: Slot = Slot(EdgeRole::CallContinuation, Origin::End);

const SLOTS: [Slots; 13] = [
    Slots(NEXT, EMPTY), // Next
    Slots(EMPTY, EMPTY), // Return
    Slots(EMPTY, EMPTY), // Throw
    Slots(Slot(EdgeRole::Jump, Origin::Computed), EMPTY), // Indirect
    Slots(
        Slot(EdgeRole::ConditionalTaken, Origin::Computed),
        NOT_TAKEN,
    ), // ConditionalIndirect
    Slots(Slot(EdgeRole::Call, Origin::Computed), CONTINUATION), // IndirectCall
    Slots(Slot(EdgeRole::Jump, Origin::Named), EMPTY), // Jump
    Slots(Slot(EdgeRole::ConditionalTaken, Origin::Named), NOT_TAKEN), // Conditional
    Slots(Slot(EdgeRole::Call, Origin::Named), CONTINUATION), // Call
    Slots(Slot(EdgeRole::Exceptional, Origin::Named), NEXT), // Exceptional
    Slots(Slot(EdgeRole::Exceptional, Origin::Computed), EMPTY), // Trap
    Slots(Slot(EdgeRole::Exceptional, Origin::Computed), NEXT), // ConditionalTrap
    Slots(Slot(EdgeRole::SwitchDefault, Origin::Named), EMPTY), // Switch
];

// Both slots of a flow.
pub fn slots_of(flow: u64) -> Slots
    requires { flow ≤ 12 }
    ensures { slots_in result ≡ slots_of flow }
{
    SLOTS[flow as usize]
}

// The transfer that a slot makes of an instruction.
#[tactic(auto, unfolding(graph::specs::Transfer::slot_transfer))]
pub fn slot_transfer(i: Instruction, slot: Slot) -> Transfer
    ensures { transfer_in result ≡ slot_transfer i (slot_in slot) }
{
    let Slot(role, from) = slot;
    Transfer {
        role,
        from,
        target: target_from(i, from),
        number: if role == EdgeRole::CallContinuation {
            i.address
        } else {
            0
        },
        key: 0,
    }
}

#[tactic(auto, unfolding(graph::specs::Transfer::slot_transfer))]
fn target_from(i: Instruction, from: Origin) -> u64
    ensures { result ≡ (slot_transfer i (record { role = 0; from = from_of from })).target }
{
    match from {
        Origin::Nowhere | Origin::Computed => 0,
        Origin::Named => i.target,
        Origin::End => i.end,
    }
}

// Case k of a Switch.
pub fn case_transfer(c: Case, k: usize) -> Transfer
    ensures { transfer_in result ≡ case_transfer c k }
{
    Transfer {
        role: EdgeRole::SwitchCase,
        from: Origin::Named,
        target: c.target,
        number: k as u64,
        key: c.key,
    }
}

pub fn has_target(x: Transfer) -> bool
    ensures { result ≡ has_target (transfer_in x) }
{
    matches!(x.from, Origin::Named | Origin::End)
}

pub fn is_empty(x: Transfer) -> bool
    ensures { result ≡ eqb (transfer_in x).from From.nowhere }
{
    x.from == Origin::Nowhere
}
