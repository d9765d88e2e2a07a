// The text of the chart: each line as bytes in a buffer that the caller lends.
#![tactic(auto)]

pub mod chart;
pub mod field;
pub mod hops;
pub mod lines;
mod put;
pub mod refusal;
pub mod routes;
