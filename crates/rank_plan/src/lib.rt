// What the rank updates share for every number kind: the plan of two matrices.
// Translated from control-rs; NOTICE names the source.

#![tactic(auto)]

mod plan;

pub use plan::{Plan, Readings, her2k_plan, syr2k_plan};
