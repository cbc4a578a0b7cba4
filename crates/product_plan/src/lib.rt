// The plan of a product, the plan of each routine, and products run by their plans, element by element: the same for every number kind.
// Translated from control-rs; NOTICE names the source.

#![tactic(auto)]

mod operands;
mod plan;
mod routines;

pub use operands::Operands;
pub use plan::{Factors, Folded, Plan, Turn};
pub use routines::{
    element_plan, gemm_plan, gemv_plan, hemv_plan, herk_plan, is_left, left_plan, right_plan,
    syrk_plan, upper_view,
};
