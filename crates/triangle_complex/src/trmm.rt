// trmm, four lines at a time.

ghost use Rattle.number.specs.Kind.{complex};
ghost use Rattle.slabs.specs.Elem.{lent};
ghost use Rattle.blas.specs.Outcome.{Gives};
ghost use Rattle.blas.specs.Trmm;

use crate::LANES;
use kinds::Complex;
use triangle_lines::trmm as lines;
use view::{Answer, Diag, Side, Trans, UpLo, View};

// B ← alpha op(A) B or alpha B op(A), A triangular
pub fn trmm(
    side: Side,
    uplo: UpLo,
    trans: Trans,
    diag: Diag,
    alpha: Complex,
    a: &[f64],
    va: View,
    b: &mut [f64],
    vb: View,
) -> Answer
    ensures { Gives complex (Trmm.trmm complex side uplo trans diag alpha (lent complex a.now va) (lent complex b.old vb)) result b.new }
{
    lines::trmm::<Complex, LANES>(side, uplo, trans, diag, alpha, a, va, b, vb)
}
