// The hops of an addition: the ways out of one block after the other, gathered in scratch, counted, and stored.
mod alike;
pub mod all;
pub mod append;
mod block;
mod busy;
pub mod cloned;
pub mod count;
pub mod entries;
pub mod gather;
pub mod sink;
pub mod standing;
