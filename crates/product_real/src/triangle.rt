// The named triangle of a target, element by element or eight columns at a time.

ghost use Rattle.std.specs.Prelude.{◌≡◌, ◌<◌, ◌≤◌};
ghost use Rattle.number.specs.Kind.{kind};
ghost use Rattle.view.specs.Triangle.{in_triangle};
ghost use Rattle.slabs.specs.Update.{update_row, update};
ghost use Rattle.product_plan.specs.Work.{plan_work, CanRun};

use crate::block::blocks;
use kinds::Real;
use product_plan::{Operands, Plan};
use view::UpLo;

// Row i of the triangle, eight columns at a time.
fn wide_row<R: Real>(ops: &Operands<R>, uplo: UpLo, plan: Plan, c: &mut [R::Cell], i: usize)
    requires { CanRun R.numbers plan ops.now c.old × (i < plan.target.rows) × (i < plan.target.cols) × (8 ≤ plan.target.cols) }
    ensures { c.new ≡ update_row (kind R.numbers) plan.target (in_triangle uplo) (plan_work R.numbers R.multipliers plan ops.now) i plan.target.cols c.old }
{
    let end = uplo.end_col(i, plan.target.cols);
    blocks(ops, plan, c, i, uplo.first_col(i), end);
}

// The whole triangle, eight columns at a time.
#[tactic(auto, using(product_plan::proofs::Steps::rows))]
fn run_wide<R: Real>(ops: &Operands<R>, uplo: UpLo, plan: Plan, c: &mut [R::Cell])
    requires { CanRun R.numbers plan ops.now c.old × (plan.target.rows ≡ plan.target.cols) × (8 ≤ plan.target.cols) }
    ensures { c.new ≡ update (kind R.numbers) plan.target (in_triangle uplo) (plan_work R.numbers R.multipliers plan ops.now) c.old }
{
    for i in 0..plan.target.rows {
        wide_row(ops, uplo, plan, c, i);
    }
}

// The whole triangle. What is multiplied, and alpha and beta, are copied: else they are read from memory for every element, since the
// target might be theirs for all that the compiler knows.
pub(crate) fn run<R: Real>(ops: &Operands<R>, uplo: UpLo, plan: Plan, c: &mut [R::Cell])
    requires { CanRun R.numbers plan ops.now c.old × (plan.target.rows ≡ plan.target.cols) }
    ensures { c.new ≡ update (kind R.numbers) plan.target (in_triangle uplo) (plan_work R.numbers R.multipliers plan ops.now) c.old }
{
    let own: Operands<R> = Operands {
        a: ops.a,
        b: ops.b,
        alpha: ops.alpha,
        beta: ops.beta,
    };
    if 8 <= plan.target.cols {
        run_wide(&own, uplo, plan, c);
    } else {
        own.run_triangle(uplo, plan, c);
    }
}
