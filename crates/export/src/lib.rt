// What Rust and C call: numbers, slices, a graph and the words of hops.
#![tactic(auto)]

pub mod add;
pub mod build;
pub mod chart;
pub mod count;
pub mod read;
pub mod whole;
