// The triangular products and solves of complex numbers, four lines of the target at a time.
// Translated from control-rs; NOTICE names the source.

#![tactic(auto)]

pub mod trmm;
pub mod trmv;
pub mod trsm;
pub mod trsv;

// How many lines are worked out side by side.
const LANES: usize = 4;
