// herk.

ghost use Rattle.number.specs.Kind.{complex};
ghost use Rattle.slabs.specs.Elem.{lent};
ghost use Rattle.blas.specs.Outcome.{Gives};
ghost use Rattle.blas.specs.Herk;

use call_check::check_herk;
use call_check::quick::quick_syrk;
use kinds::{Complex, Number};
use product_plan::{Operands, herk_plan};
use view::{Answer, Trans, UpLo, View};

// C ← alpha A Aᴴ + beta C or alpha Aᴴ A + beta C, in the named triangle, alpha and beta real
pub fn herk(
    uplo: UpLo,
    trans: Trans,
    alpha: f64,
    a: &[f64],
    va: View,
    beta: f64,
    c: &mut [f64],
    vc: View,
) -> Answer
    ensures { Gives complex (Herk.herk complex uplo trans alpha (lent complex a.now va) beta (lent complex c.old vc)) result c.new }
{
    let (la, lc) = (Complex::count(a), Complex::count(c));
    let quick = quick_syrk(trans, va, la, vc, lc);
    let answer = check_herk(quick, trans, va, la, vc, lc);
    if answer.passed() {
        let ops: Operands<Complex> = Operands {
            a,
            b: a,
            alpha: Complex::real_multiplier(alpha),
            beta: Complex::judged_real(beta),
        };
        ops.run_triangle(uplo, herk_plan(trans, va, vc), c);
    }
    answer
}
