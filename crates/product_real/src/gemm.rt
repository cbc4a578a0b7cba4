// gemm, by rows, element by element or eight columns at a time.

ghost use Rattle.std.specs.Prelude.{◌≡◌, ◌≤◌};
ghost use Rattle.number.specs.Kind.{kind};
ghost use Rattle.slabs.specs.Elem.{lent};
ghost use Rattle.slabs.specs.Update.{everywhere, update};
ghost use Rattle.blas.specs.Outcome.{Gives};
ghost use Rattle.blas.specs.Gemm;
ghost use Rattle.product_plan.specs.Work.{plan_work, CanRun};

use crate::block::blocks;
use call_check::check_gemm;
use call_check::quick::quick_gemm;
use kinds::Real;
use product_plan::{Operands, Plan, gemm_plan};
use view::{Answer, Trans, View};

// The whole target, eight columns at a time.
#[tactic(auto, using(product_plan::proofs::Steps::rows))]
fn run_wide<R: Real>(ops: &Operands<R>, plan: Plan, c: &mut [R::Cell])
    requires { CanRun R.numbers plan ops.now c.old × (8 ≤ plan.target.cols) }
    ensures { c.new ≡ update (kind R.numbers) plan.target everywhere (plan_work R.numbers R.multipliers plan ops.now) c.old }
{
    for i in 0..plan.target.rows {
        blocks(ops, plan, c, i, 0, plan.target.cols);
    }
}

// The whole target.
fn run<R: Real>(ops: &Operands<R>, plan: Plan, c: &mut [R::Cell])
    requires { CanRun R.numbers plan ops.now c.old }
    ensures { c.new ≡ update (kind R.numbers) plan.target everywhere (plan_work R.numbers R.multipliers plan ops.now) c.old }
{
    if 8 <= plan.target.cols {
        run_wide(ops, plan, c);
    } else {
        ops.run(plan, c);
    }
}

// C ← alpha op(A) op(B) + beta C
pub fn gemm<R: Real>(
    ta: Trans,
    tb: Trans,
    alpha: R,
    a: &[R::Cell],
    va: View,
    b: &[R::Cell],
    vb: View,
    beta: R,
    c: &mut [R::Cell],
    vc: View,
) -> Answer
    ensures { let K = kind R.numbers in Gives K (Gemm.gemm K ta tb alpha (lent K a.now va) (lent K b.now vb) beta (lent K c.old vc)) result c.new }
{
    let left = va.op(ta);
    let right = vb.op(tb);
    let (la, lb, lc) = (R::count(a), R::count(b), R::count(c));
    let quick = quick_gemm(left, la, right, lb, vc, lc);
    let answer = check_gemm(quick, ta, tb, va, la, vb, lb, vc, lc);
    if answer.passed() {
        let plan = gemm_plan(ta.conjugates(), left, tb.conjugates(), right, vc);
        let ops: Operands<R> = Operands {
            a,
            b,
            alpha: alpha.multiplier(),
            beta: beta.judged(),
        };
        run(&ops, plan, c);
    }
    answer
}
