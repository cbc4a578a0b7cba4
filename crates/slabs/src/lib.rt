// A lent slab as a view shows it; sums side by side, and the columns that they take.

#![tactic(auto)]

mod access;
mod block;
mod lanes;

pub use access::{elem, elem_conj, place};
pub use block::{block_end, block_start};
pub use lanes::{minus_lanes, plus_beside, plus_conj_lanes, plus_lanes, zeros};
