// gemm, by rows, element by element or four columns at a time.

ghost use Rattle.std.specs.Prelude.{◌≡◌, ◌<◌, ◌≤◌};
ghost use Rattle.number.specs.Kind.{complex, complex_numbers};
ghost use Rattle.number.specs.Scaling.{complex_multipliers};
ghost use Rattle.slabs.specs.Elem.{lent};
ghost use Rattle.slabs.specs.Update.{everywhere, update_row, update};
ghost use Rattle.blas.specs.Outcome.{Gives};
ghost use Rattle.blas.specs.Gemm;
ghost use Rattle.product_plan.specs.Work.{plan_work, CanRun};

use call_check::check_gemm;
use call_check::quick::quick_gemm;
use kinds::{Complex, Number};
use product_plan::{Operands, Plan, gemm_plan};
use slabs::{block_start, zeros};
use view::{Answer, Trans, View};

// Row i of the target, four columns at a time.
fn wide_row(ops: &Operands<Complex>, plan: Plan, c: &mut [f64], i: usize)
    requires { CanRun complex_numbers plan ops.now c.old × (i < plan.target.rows) × (4 ≤ plan.target.cols) }
    ensures { c.new ≡ update_row complex plan.target everywhere (plan_work complex_numbers complex_multipliers plan ops.now) i plan.target.cols c.old }
{
    let n = plan.target.cols;
    for j in (0..n).step_by(4) {
        let from = block_start(4, j, n);
        let sums: [Complex; 4] = ops.add_lanes(plan.factors, i, from, 0, plan.terms, zeros());
        ops.settle_block(plan.target, c, i, from, j, from + 4, sums);
    }
}

// The whole target, four columns at a time.
#[tactic(auto, using(product_plan::proofs::Steps::rows))]
fn run_wide(ops: &Operands<Complex>, plan: Plan, c: &mut [f64])
    requires { CanRun complex_numbers plan ops.now c.old × (4 ≤ plan.target.cols) }
    ensures { c.new ≡ update complex plan.target everywhere (plan_work complex_numbers complex_multipliers plan ops.now) c.old }
{
    for i in 0..plan.target.rows {
        wide_row(ops, plan, c, i);
    }
}

// The whole target.
fn run(ops: &Operands<Complex>, plan: Plan, c: &mut [f64])
    requires { CanRun complex_numbers plan ops.now c.old }
    ensures { c.new ≡ update complex plan.target everywhere (plan_work complex_numbers complex_multipliers plan ops.now) c.old }
{
    if 8 <= plan.target.cols {
        run_wide(ops, plan, c);
    } else {
        ops.run(plan, c);
    }
}

// C ← alpha op(A) op(B) + beta C
pub fn gemm(
    ta: Trans,
    tb: Trans,
    alpha: Complex,
    a: &[f64],
    va: View,
    b: &[f64],
    vb: View,
    beta: Complex,
    c: &mut [f64],
    vc: View,
) -> Answer
    ensures { Gives complex (Gemm.gemm complex ta tb alpha (lent complex a.now va) (lent complex b.now vb) beta (lent complex c.old vc)) result c.new }
{
    let left = va.op(ta);
    let right = vb.op(tb);
    let (la, lb, lc) = (Complex::count(a), Complex::count(b), Complex::count(c));
    let quick = quick_gemm(left, la, right, lb, vc, lc);
    let answer = check_gemm(quick, ta, tb, va, la, vb, lb, vc, lc);
    if answer.passed() {
        let plan = gemm_plan(ta.conjugates(), left, tb.conjugates(), right, vc);
        let ops: Operands<Complex> = Operands {
            a,
            b,
            alpha: alpha.multiplier(),
            beta: beta.judged(),
        };
        run(&ops, plan, c);
    }
    answer
}
