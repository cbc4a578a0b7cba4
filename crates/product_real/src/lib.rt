// The products of real numbers, eight sums side by side: generic over their type. Translated from control-rs; NOTICE names the source.

#![tactic(auto)]

mod block;
mod folded;
pub mod gemm;
pub mod gemv;
pub mod hemm;
pub mod hemv;
pub mod herk;
mod sided;
pub mod symm;
pub mod syrk;
mod triangle;
