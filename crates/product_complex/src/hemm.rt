// hemm, A on either side.

ghost use Rattle.number.specs.Kind.{complex};
ghost use Rattle.slabs.specs.Elem.{lent};
ghost use Rattle.blas.specs.Outcome.{Gives};
ghost use Rattle.blas.specs.Hemm;

use crate::sided;
use call_check::check_hemm;
use call_check::quick::quick_symm;
use kinds::{Complex, Number};
use product_plan::Operands;
use view::{Answer, Side, UpLo, View};

// C ← alpha A B + beta C or alpha B A + beta C, A Hermitian
pub fn hemm(
    side: Side,
    uplo: UpLo,
    alpha: Complex,
    a: &[f64],
    va: View,
    b: &[f64],
    vb: View,
    beta: Complex,
    c: &mut [f64],
    vc: View,
) -> Answer
    ensures { Gives complex (Hemm.hemm complex side uplo alpha (lent complex a.now va) (lent complex b.now vb) beta (lent complex c.old vc)) result c.new }
{
    let (la, lb, lc) = (Complex::count(a), Complex::count(b), Complex::count(c));
    let quick = quick_symm(side, va, la, vb, lb, vc, lc);
    let answer = check_hemm(quick, side, va, la, vb, lb, vc, lc);
    if answer.passed() {
        let ops: Operands<Complex> = Operands {
            a,
            b,
            alpha: alpha.multiplier(),
            beta: beta.judged(),
        };
        sided::run(true, side, uplo, &ops, va, vb, c, vc);
    }
    answer
}
