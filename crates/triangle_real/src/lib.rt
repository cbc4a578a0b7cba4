// The triangular products and solves of the real kinds: eight lines of the target at a time, or eight rows of a vector.
// Translated from control-rs; NOTICE names the source.

#![tactic(auto)]

mod rows;
pub mod trmm;
pub mod trmv;
pub mod trsm;
pub mod trsv;

// How many lines are worked out side by side.
const LANES: usize = 8;
