// The roles of edges and of unresolved transfers, and the kinds of edges: each is stored by its number in these orders.
ghost use Rattle.std.specs.Prelude.{◌≡◌};
ghost use Rattle.graph.specs.Flow.{kind_of, falls_through, unresolved_role};
ghost use Rattle.builder.specs.Roles.{role_of, kind_in, unresolved_in};

// What a build gives an edge that is not given.
#[derive(Clone, Copy, PartialEq, Eq)]
pub enum EdgeRole {
    Sequential,
    ConditionalTaken,
    ConditionalFallThrough,
    Jump,
    SwitchDefault,
    SwitchCase,
    Call,
    CallContinuation,
    Exceptional,
    Unwind,
}

#[derive(Clone, Copy)]
pub enum EdgeKind {
    Fallthrough,
    ConditionalTrue,
    ConditionalFalse,
    Jump,
    SwitchCase,
    Call,
    CallReturn,
    ExceptionUnwind,
}

#[derive(Clone, Copy)]
pub enum UnresolvedRole {
    Indirect,
    IndirectCall,
    ConditionalTaken,
    ConditionalIndirect,
    Jump,
    SwitchDefault,
    SwitchCase,
    Call,
    Exceptional,
    Trap,
}

// `EdgeRole::kind`
#[tactic(auto, unfolding(graph::specs::Flow::kind_of))]
pub fn kind_of(role: EdgeRole) -> EdgeKind
    ensures { kind_in result ≡ kind_of (role_of role) }
{
    match role {
        EdgeRole::Sequential => EdgeKind::Fallthrough,
        EdgeRole::ConditionalTaken => EdgeKind::ConditionalTrue,
        EdgeRole::ConditionalFallThrough => EdgeKind::ConditionalFalse,
        EdgeRole::Jump => EdgeKind::Jump,
        EdgeRole::SwitchDefault | EdgeRole::SwitchCase => EdgeKind::SwitchCase,
        EdgeRole::Call => EdgeKind::Call,
        EdgeRole::CallContinuation => EdgeKind::CallReturn,
        EdgeRole::Exceptional | EdgeRole::Unwind => EdgeKind::ExceptionUnwind,
    }
}

#[tactic(auto, unfolding(graph::specs::Flow::falls_through))]
pub fn falls_through(role: EdgeRole) -> bool
    ensures { result ≡ falls_through (role_of role) }
{
    matches!(
        role,
        EdgeRole::Sequential | EdgeRole::ConditionalFallThrough | EdgeRole::CallContinuation
    )
}

// `Transfer::unresolved_role`, of a role that does not fall through
#[tactic(auto, unfolding(graph::specs::Flow::unresolved_role))]
pub fn unresolved_role(role: EdgeRole, target: bool) -> UnresolvedRole
    ensures { unresolved_in result ≡ unresolved_role (role_of role) target }
{
    match role {
        EdgeRole::ConditionalTaken if target => UnresolvedRole::ConditionalTaken,
        EdgeRole::ConditionalTaken => UnresolvedRole::ConditionalIndirect,
        EdgeRole::Jump if target => UnresolvedRole::Jump,
        EdgeRole::Jump => UnresolvedRole::Indirect,
        EdgeRole::SwitchDefault => UnresolvedRole::SwitchDefault,
        EdgeRole::SwitchCase => UnresolvedRole::SwitchCase,
        EdgeRole::Call if target => UnresolvedRole::Call,
        EdgeRole::Call => UnresolvedRole::IndirectCall,
        _ if target => UnresolvedRole::Exceptional,
        _ => UnresolvedRole::Trap,
    }
}
