// The three builds: from an image to its graph in lent words, or the refusal.
#![tactic(auto)]

mod blocks;
pub mod build;
mod calls;
mod checks;
mod code;
mod continuations;
mod cursor;
mod drafts;
mod edge_count;
mod edges;
mod exceptions;
mod flow;
mod leaders;
mod lookup;
mod marks;
mod ranges;
mod regions;
mod roles;
mod route;
mod transfer;
