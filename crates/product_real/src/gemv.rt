// gemv, element by element or eight rows at a time.

ghost use Rattle.std.specs.Prelude.{◌≡◌, ◌≤◌, ◌+◌, ◌-◌};
ghost use Rattle.number.specs.Kind.{kind};
ghost use Rattle.number.specs.Scaling.{scale_by};
ghost use Rattle.view.specs.Steps.{Accepted};
ghost use Rattle.slabs.specs.Eight.{lane, Lanes, Block};
ghost use Rattle.slabs.specs.Elem.{lent};
ghost use Rattle.slabs.specs.Update.{everywhere, span_rows, update};
ghost use Rattle.blas.specs.Matrix.{accumulate};
ghost use Rattle.blas.specs.Outcome.{Gives};
ghost use Rattle.blas.specs.Gemv;
ghost use Rattle.product_plan.specs.Plan.{product, Reads};
ghost use Rattle.product_plan.specs.Work.{plan_work, CanRun};

use call_check::check_gemv;
use call_check::quick::quick_gemv;
use kinds::Real;
use product_plan::{Operands, Plan, gemv_plan};
use slabs::{block_start, elem, plus_lanes, zeros};
use view::{Answer, Trans, View};

// The sums of the eight elements of a column from row i on: op(A)'s rows lie apart as its transpose's columns do.
fn column_sums<R: Real>(ops: &Operands<R>, plan: Plan, i: usize) -> [R; 8]
    requires { Reads plan.factors (R.numbers.count ops.now.a.now) (R.numbers.count ops.now.b.now) plan.target.rows plan.target.cols plan.terms × (i + 8 ≤ plan.target.rows) × (plan.target.cols ≡ 1) }
    ensures { Lanes (kind R.numbers) 8 result (λ t. product (kind R.numbers) plan ops.now.a.now ops.now.b.now (i + t) 0) }
{
    let v = plan.factors.left.transposed();
    let mut sums: [R; 8] = zeros();
    for p in 0..plan.terms {
        sums = plus_lanes(elem(ops.b, plan.factors.right, p, 0), ops.a, v, p, i, sums);
    }
    sums
}

// Elements `first` to before from + 8 of a column, with the sums of those from `from` on.
#[tactic(auto, using(product_plan::proofs::Steps::elements_from))]
fn settle_column<R: Real>(
    ops: &Operands<R>,
    v: View,
    c: &mut [R::Cell],
    from: usize,
    first: usize,
    sums: [R; 8],
)
    requires { Accepted v (R.numbers.count c.old) × (v.cols ≡ 1) × Block 8 from first (from + 8) v.rows }
    ensures { c.new ≡ span_rows (kind R.numbers) v (accumulate (kind R.numbers) (scale_by R.numbers R.multipliers ops.now.beta) (R.multipliers.times ops.now.alpha) (λ i j. lane (kind R.numbers) sums (i - from))) first (from + 8) c.old }
{
    let own: Operands<R> = Operands {
        a: ops.a,
        b: ops.b,
        alpha: ops.alpha,
        beta: ops.beta,
    };
    for i in first..from + 8 {
        own.settle(v, c, i, 0, sums[i - from]);
    }
}

// The whole target, which is a column, eight rows at a time.
fn column_wide<R: Real>(ops: &Operands<R>, plan: Plan, c: &mut [R::Cell])
    requires { CanRun R.numbers plan ops.now c.old × (plan.target.cols ≡ 1) × (8 ≤ plan.target.rows) }
    ensures { c.new ≡ update (kind R.numbers) plan.target everywhere (plan_work R.numbers R.multipliers plan ops.now) c.old }
{
    let m = plan.target.rows;
    for i in (0..m).step_by(8) {
        let from = block_start(8, i, m);
        settle_column(ops, plan.target, c, from, i, column_sums(ops, plan, from));
    }
}

// The whole target, which is a column, element by element.
#[tactic(auto, using(product_plan::proofs::Steps::elements))]
fn column_plain<R: Real>(ops: &Operands<R>, plan: Plan, c: &mut [R::Cell])
    requires { CanRun R.numbers plan ops.now c.old × (plan.target.cols ≡ 1) }
    ensures { c.new ≡ update (kind R.numbers) plan.target everywhere (plan_work R.numbers R.multipliers plan ops.now) c.old }
{
    for i in 0..plan.target.rows {
        ops.entry(plan, c, i, 0);
    }
}

// The whole target, which is a column.
fn run_column<R: Real>(ops: &Operands<R>, plan: Plan, c: &mut [R::Cell])
    requires { CanRun R.numbers plan ops.now c.old × (plan.target.cols ≡ 1) }
    ensures { c.new ≡ update (kind R.numbers) plan.target everywhere (plan_work R.numbers R.multipliers plan ops.now) c.old }
{
    if 8 <= plan.target.rows {
        column_wide(ops, plan, c);
    } else {
        column_plain(ops, plan, c);
    }
}

// y ← alpha op(A) x + beta y
pub fn gemv<R: Real>(
    trans: Trans,
    alpha: R,
    a: &[R::Cell],
    va: View,
    x: &[R::Cell],
    vx: View,
    beta: R,
    y: &mut [R::Cell],
    vy: View,
) -> Answer
    ensures { let K = kind R.numbers in Gives K (Gemv.gemv K trans alpha (lent K a.now va) (lent K x.now vx) beta (lent K y.old vy)) result y.new }
{
    let left = va.op(trans);
    let (la, lx, ly) = (R::count(a), R::count(x), R::count(y));
    let quick = quick_gemv(left, la, vx, lx, vy, ly);
    let answer = check_gemv(quick, trans, va, la, vx, lx, vy, ly);
    if answer.passed() {
        let plan = gemv_plan(trans.conjugates(), left, vx, vy);
        let ops: Operands<R> = Operands {
            a,
            b: x,
            alpha: alpha.multiplier(),
            beta: beta.judged(),
        };
        run_column(&ops, plan, y);
    }
    answer
}
