// trsm, four lines at a time.

ghost use Rattle.number.specs.Kind.{complex};
ghost use Rattle.slabs.specs.Elem.{lent};
ghost use Rattle.blas.specs.Outcome.{Gives};
ghost use Rattle.blas.specs.Trsm;

use crate::LANES;
use kinds::Complex;
use triangle_lines::trsm as lines;
use view::{Answer, Diag, Side, Trans, UpLo, View};

// op(A) X = alpha B or X op(A) = alpha B solved in B's place, A triangular
pub fn trsm(
    side: Side,
    uplo: UpLo,
    trans: Trans,
    diag: Diag,
    alpha: Complex,
    a: &[f64],
    va: View,
    b: &mut [f64],
    vb: View,
) -> Answer
    ensures { Gives complex (Trsm.trsm complex side uplo trans diag alpha (lent complex a.now va) (lent complex b.old vb)) result b.new }
{
    lines::trsm::<Complex, LANES>(side, uplo, trans, diag, alpha, a, va, b, vb)
}
