// hemv.

ghost use Rattle.std.specs.Prelude.{◌≡◌};
ghost use Rattle.number.specs.Kind.{kind};
ghost use Rattle.slabs.specs.Elem.{lent};
ghost use Rattle.slabs.specs.Update.{everywhere, update};
ghost use Rattle.blas.specs.Outcome.{Gives};
ghost use Rattle.blas.specs.Hemv;
ghost use Rattle.product_plan.specs.Work.{folded_work, CanRunFolded};

use call_check::check_hemv;
use call_check::quick::quick_hemv;
use kinds::Real;
use product_plan::{Folded, Operands, hemv_plan};
use view::{Answer, UpLo, View};

// The whole target, which is a column.
#[tactic(auto, using(product_plan::proofs::Steps::elements))]
fn run_left_column<R: Real>(ops: &Operands<R>, plan: Folded, c: &mut [R::Cell])
    requires { CanRunFolded R.numbers plan ops.now c.old × (plan.target.cols ≡ 1) }
    ensures { c.new ≡ update (kind R.numbers) plan.target everywhere (folded_work R.numbers R.multipliers plan ops.now) c.old }
{
    for i in 0..plan.target.rows {
        ops.folded_entry(plan, c, i, 0);
    }
}

// y ← alpha A x + beta y, A Hermitian
pub fn hemv<R: Real>(
    uplo: UpLo,
    alpha: R,
    a: &[R::Cell],
    va: View,
    x: &[R::Cell],
    vx: View,
    beta: R,
    y: &mut [R::Cell],
    vy: View,
) -> Answer
    ensures { let K = kind R.numbers in Gives K (Hemv.hemv K uplo alpha (lent K a.now va) (lent K x.now vx) beta (lent K y.old vy)) result y.new }
{
    let (la, lx, ly) = (R::count(a), R::count(x), R::count(y));
    let quick = quick_hemv(va, la, vx, lx, vy, ly);
    let answer = check_hemv(quick, va, la, vx, lx, vy, ly);
    if answer.passed() {
        let ops: Operands<R> = Operands {
            a,
            b: x,
            alpha: alpha.multiplier(),
            beta: beta.judged(),
        };
        run_left_column(&ops, hemv_plan(uplo, va, vx, vy), y);
    }
    answer
}
