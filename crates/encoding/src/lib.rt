// Numbers as bytes, low byte first, and floats by their bits.

#![tactic(auto)]

pub mod bits;
pub mod little;
