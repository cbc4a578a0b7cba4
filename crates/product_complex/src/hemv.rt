// hemv.

ghost use Rattle.std.specs.Prelude.{◌≡◌, ◌<◌};
ghost use Rattle.number.specs.Kind.{complex, complex_numbers};
ghost use Rattle.number.specs.Scaling.{complex_multipliers};
ghost use Rattle.slabs.specs.Elem.{lent};
ghost use Rattle.slabs.specs.Update.{everywhere, replaced, update};
ghost use Rattle.blas.specs.Outcome.{Gives};
ghost use Rattle.blas.specs.Hemv;
ghost use Rattle.product_plan.specs.Plan.{ByRow};
ghost use Rattle.product_plan.specs.Work.{folded_work, CanRunFolded};

use crate::left::add_left;
use call_check::check_hemv;
use call_check::quick::quick_hemv;
use kinds::{Complex, Number};
use product_plan::{Folded, Operands, hemv_plan};
use view::{Answer, UpLo, View};

// Element (i, j) of a folded plan's target, with no right factor conjugated.
#[tactic(auto, using(product_plan::proofs::Steps::sums))]
fn hemv_entry(ops: &Operands<Complex>, plan: Folded, c: &mut [f64], i: usize, j: usize)
    requires { CanRunFolded complex_numbers plan ops.now c.old × ByRow plan × (i < plan.target.rows) × (j < plan.target.cols) }
    ensures { c.new ≡ replaced complex plan.target i j (folded_work complex_numbers complex_multipliers plan ops.now i j) c.old }
{
    let k = plan.turn.at(i, j, plan.terms);
    let head = add_left(ops, plan.head, i, j, 0, k, Complex::zero());
    let sum = add_left(ops, plan.tail, i, j, k, plan.terms, head);
    ops.settle(plan.target, c, i, j, sum);
}

// The whole target, which is a column.
#[tactic(auto, using(product_plan::proofs::Steps::elements))]
fn run_left_column(ops: &Operands<Complex>, plan: Folded, c: &mut [f64])
    requires { CanRunFolded complex_numbers plan ops.now c.old × ByRow plan × (plan.target.cols ≡ 1) }
    ensures { c.new ≡ update complex plan.target everywhere (folded_work complex_numbers complex_multipliers plan ops.now) c.old }
{
    for i in 0..plan.target.rows {
        hemv_entry(ops, plan, c, i, 0);
    }
}

// y ← alpha A x + beta y, A Hermitian
pub fn hemv(
    uplo: UpLo,
    alpha: Complex,
    a: &[f64],
    va: View,
    x: &[f64],
    vx: View,
    beta: Complex,
    y: &mut [f64],
    vy: View,
) -> Answer
    ensures { Gives complex (Hemv.hemv complex uplo alpha (lent complex a.now va) (lent complex x.now vx) beta (lent complex y.old vy)) result y.new }
{
    let (la, lx, ly) = (Complex::count(a), Complex::count(x), Complex::count(y));
    let quick = quick_hemv(va, la, vx, lx, vy, ly);
    let answer = check_hemv(quick, va, la, vx, lx, vy, ly);
    if answer.passed() {
        let ops: Operands<Complex> = Operands {
            a,
            b: x,
            alpha: alpha.multiplier(),
            beta: beta.judged(),
        };
        run_left_column(&ops, hemv_plan(uplo, va, vx, vy), y);
    }
    answer
}
