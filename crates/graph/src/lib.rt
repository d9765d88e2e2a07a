// The control flow graph of a sequence: its store, its own rule (21) and what is reached; what a build gives is defined here too.
#![tactic(auto)]

pub mod blockset;
pub mod error;
pub mod reach;
pub mod record;
pub mod resume;
pub mod rule;
pub mod store;
