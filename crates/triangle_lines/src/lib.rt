// The triangular products and solves of any number kind: W lines of the target at a time are worked out side by side.
// Translated from control-rs; NOTICE names the source.

#![tactic(auto)]

mod lanes;
pub mod line;
pub mod multiply;
mod solve;
pub mod trmm;
pub mod trmv;
pub mod trsm;
pub mod trsv;
mod unknown;
