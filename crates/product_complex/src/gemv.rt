// gemv.

ghost use Rattle.std.specs.Prelude.{◌≡◌, false, ◌<◌};
ghost use Rattle.number.specs.Kind.{complex, complex_numbers};
ghost use Rattle.number.specs.Scaling.{complex_multipliers};
ghost use Rattle.slabs.specs.Elem.{lent};
ghost use Rattle.slabs.specs.Update.{everywhere, replaced, update};
ghost use Rattle.blas.specs.Outcome.{Gives};
ghost use Rattle.blas.specs.Gemv;
ghost use Rattle.product_plan.specs.Work.{plan_work, CanRun};

use crate::left::add_left;
use call_check::check_gemv;
use call_check::quick::quick_gemv;
use kinds::{Complex, Number};
use product_plan::{Operands, Plan, gemv_plan};
use view::{Answer, Trans, View};

// Element (i, j) of the target, with no right factor conjugated.
#[tactic(auto, using(product_plan::proofs::Steps::sums))]
fn column_entry(ops: &Operands<Complex>, plan: Plan, c: &mut [f64], i: usize, j: usize)
    requires { CanRun complex_numbers plan ops.now c.old × (i < plan.target.rows) × (j < plan.target.cols) × (plan.factors.right_conj ≡ false) }
    ensures { c.new ≡ replaced complex plan.target i j (plan_work complex_numbers complex_multipliers plan ops.now i j) c.old }
{
    let sum = add_left(ops, plan.factors, i, j, 0, plan.terms, Complex::zero());
    ops.settle(plan.target, c, i, j, sum);
}

// The whole target, which is a column.
#[tactic(auto, using(product_plan::proofs::Steps::elements))]
fn run_column(ops: &Operands<Complex>, plan: Plan, c: &mut [f64])
    requires { CanRun complex_numbers plan ops.now c.old × (plan.target.cols ≡ 1) × (plan.factors.right_conj ≡ false) }
    ensures { c.new ≡ update complex plan.target everywhere (plan_work complex_numbers complex_multipliers plan ops.now) c.old }
{
    for i in 0..plan.target.rows {
        column_entry(ops, plan, c, i, 0);
    }
}

// y ← alpha op(A) x + beta y
pub fn gemv(
    trans: Trans,
    alpha: Complex,
    a: &[f64],
    va: View,
    x: &[f64],
    vx: View,
    beta: Complex,
    y: &mut [f64],
    vy: View,
) -> Answer
    ensures { Gives complex (Gemv.gemv complex trans alpha (lent complex a.now va) (lent complex x.now vx) beta (lent complex y.old vy)) result y.new }
{
    let left = va.op(trans);
    let (la, lx, ly) = (Complex::count(a), Complex::count(x), Complex::count(y));
    let quick = quick_gemv(left, la, vx, lx, vy, ly);
    let answer = check_gemv(quick, trans, va, la, vx, lx, vy, ly);
    if answer.passed() {
        let plan = gemv_plan(trans.conjugates(), left, vx, vy);
        let ops: Operands<Complex> = Operands {
            a,
            b: x,
            alpha: alpha.multiplier(),
            beta: beta.judged(),
        };
        run_column(&ops, plan, y);
    }
    answer
}
