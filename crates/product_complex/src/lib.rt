// The products of complex numbers, four sums side by side. Translated from control-rs; NOTICE names the source.

#![tactic(auto)]

pub mod gemm;
pub mod gemv;
pub mod hemm;
pub mod hemv;
pub mod herk;
mod left;
mod sided;
pub mod symm;
pub mod syrk;
