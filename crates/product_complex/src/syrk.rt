// syrk.

ghost use Rattle.number.specs.Kind.{complex};
ghost use Rattle.slabs.specs.Elem.{lent};
ghost use Rattle.blas.specs.Outcome.{Gives};
ghost use Rattle.blas.specs.Syrk;

use call_check::check_syrk;
use call_check::quick::quick_syrk;
use kinds::{Complex, Number};
use product_plan::{Operands, syrk_plan};
use view::{Answer, Trans, UpLo, View};

// C ← alpha A Aᵀ + beta C or alpha Aᵀ A + beta C, in the named triangle
pub fn syrk(
    uplo: UpLo,
    trans: Trans,
    alpha: Complex,
    a: &[f64],
    va: View,
    beta: Complex,
    c: &mut [f64],
    vc: View,
) -> Answer
    ensures { Gives complex (Syrk.syrk complex uplo trans alpha (lent complex a.now va) beta (lent complex c.old vc)) result c.new }
{
    let (la, lc) = (Complex::count(a), Complex::count(c));
    let quick = quick_syrk(trans, va, la, vc, lc);
    let answer = check_syrk(quick, trans, va, la, vc, lc);
    if answer.passed() {
        let ops: Operands<Complex> = Operands {
            a,
            b: a,
            alpha: alpha.multiplier(),
            beta: beta.judged(),
        };
        ops.run_triangle(uplo, syrk_plan(trans, va, vc), c);
    }
    answer
}
