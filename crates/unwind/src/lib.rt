// The unwinding: routes added to a graph, each function against the definition in the crate below.
#![tactic(auto)]

pub mod add;
mod blocks;
mod checks;
mod clones;
mod emit;
pub mod hops;
mod node_checks;
mod part;
mod place;
mod routes;
mod sides;
mod slots;
mod tries;
mod wants;
