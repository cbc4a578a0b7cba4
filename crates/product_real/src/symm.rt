// symm, A on either side.

ghost use Rattle.number.specs.Kind.{kind};
ghost use Rattle.slabs.specs.Elem.{lent};
ghost use Rattle.blas.specs.Outcome.{Gives};
ghost use Rattle.blas.specs.Symm;

use crate::sided;
use call_check::check_symm;
use call_check::quick::quick_symm;
use kinds::Real;
use product_plan::{Operands, upper_view};
use view::{Answer, Side, UpLo, View};

// C ← alpha A B + beta C or alpha B A + beta C, A symmetric
pub fn symm<R: Real>(
    side: Side,
    uplo: UpLo,
    alpha: R,
    a: &[R::Cell],
    va: View,
    b: &[R::Cell],
    vb: View,
    beta: R,
    c: &mut [R::Cell],
    vc: View,
) -> Answer
    ensures { let K = kind R.numbers in Gives K (Symm.symm K side uplo alpha (lent K a.now va) (lent K b.now vb) beta (lent K c.old vc)) result c.new }
{
    let (la, lb, lc) = (R::count(a), R::count(b), R::count(c));
    let quick = quick_symm(side, va, la, vb, lb, vc, lc);
    let answer = check_symm(quick, side, va, la, vb, lb, vc, lc);
    if answer.passed() {
        let ops: Operands<R> = Operands {
            a,
            b,
            alpha: alpha.multiplier(),
            beta: beta.judged(),
        };
        sided::run(side, &ops, upper_view(uplo, va), vb, c, vc);
    }
    answer
}
