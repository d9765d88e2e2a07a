// Sequence images and route images: what an operator's file says, or why it is refused.
#![tactic(auto)]

pub mod access;
mod check;
pub mod form;
pub mod kinds;
pub mod little;
pub mod read;
pub mod record;
mod scan;
pub mod section;
pub mod table;
pub mod whole;
