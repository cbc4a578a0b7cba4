// herk.

ghost use Rattle.number.specs.Kind.{kind};
ghost use Rattle.slabs.specs.Elem.{lent};
ghost use Rattle.blas.specs.Outcome.{Gives};
ghost use Rattle.blas.specs.Herk;

use crate::triangle;
use call_check::check_herk;
use call_check::quick::quick_syrk;
use kinds::Real;
use product_plan::{Operands, herk_plan};
use view::{Answer, Trans, UpLo, View};

// C ← alpha A Aᴴ + beta C or alpha Aᴴ A + beta C, in the named triangle, alpha and beta real
pub fn herk<R: Real>(
    uplo: UpLo,
    trans: Trans,
    alpha: R::Factor,
    a: &[R::Cell],
    va: View,
    beta: R::Factor,
    c: &mut [R::Cell],
    vc: View,
) -> Answer
    ensures { let K = kind R.numbers in Gives K (Herk.herk K uplo trans alpha (lent K a.now va) beta (lent K c.old vc)) result c.new }
{
    let (la, lc) = (R::count(a), R::count(c));
    let quick = quick_syrk(trans, va, la, vc, lc);
    let answer = check_herk(quick, trans, va, la, vc, lc);
    if answer.passed() {
        let ops: Operands<R> = Operands {
            a,
            b: a,
            alpha: R::real_multiplier(alpha),
            beta: R::judged_real(beta),
        };
        triangle::run(&ops, uplo, herk_plan(trans, va, vc), c);
    }
    answer
}
