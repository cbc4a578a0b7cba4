// syrk.

ghost use Rattle.number.specs.Kind.{kind};
ghost use Rattle.slabs.specs.Elem.{lent};
ghost use Rattle.blas.specs.Outcome.{Gives};
ghost use Rattle.blas.specs.Syrk;

use crate::triangle;
use call_check::check_syrk;
use call_check::quick::quick_syrk;
use kinds::Real;
use product_plan::{Operands, syrk_plan};
use view::{Answer, Trans, UpLo, View};

// C ← alpha A Aᵀ + beta C or alpha Aᵀ A + beta C, in the named triangle
pub fn syrk<R: Real>(
    uplo: UpLo,
    trans: Trans,
    alpha: R,
    a: &[R::Cell],
    va: View,
    beta: R,
    c: &mut [R::Cell],
    vc: View,
) -> Answer
    ensures { let K = kind R.numbers in Gives K (Syrk.syrk K uplo trans alpha (lent K a.now va) beta (lent K c.old vc)) result c.new }
{
    let (la, lc) = (R::count(a), R::count(c));
    let quick = quick_syrk(trans, va, la, vc, lc);
    let answer = check_syrk(quick, trans, va, la, vc, lc);
    if answer.passed() {
        let ops: Operands<R> = Operands {
            a,
            b: a,
            alpha: alpha.multiplier(),
            beta: beta.judged(),
        };
        triangle::run(&ops, uplo, syrk_plan(trans, va, vc), c);
    }
    answer
}
