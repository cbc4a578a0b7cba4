// The rank updates, for every number kind. Translated from control-rs; NOTICE names the source.

#![tactic(auto)]

mod column;
pub mod her;
pub mod her2;
pub mod her2k;
mod pairs;
pub mod syr2k;
mod weights;
