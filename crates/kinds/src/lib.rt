// The number kinds of document 01: f64, f32 and complex, each with its constants and operations, and beta judged once.
// Each operation rounds once, in the order written. Translated from control-rs; NOTICE names the source.

#![tactic(auto)]

mod complex;
mod kind;
mod real32;
mod real64;

pub use kind::{Number, Real};
pub use number::{Beta, Complex, Multiplier};
