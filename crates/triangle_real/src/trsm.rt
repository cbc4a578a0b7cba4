// trsm, eight lines at a time.

ghost use Rattle.number.specs.Kind.{kind};
ghost use Rattle.slabs.specs.Elem.{lent};
ghost use Rattle.blas.specs.Outcome.{Gives};
ghost use Rattle.blas.specs.Trsm;

use crate::LANES;
use kinds::Real;
use triangle_lines::trsm as lines;
use view::{Answer, Diag, Side, Trans, UpLo, View};

// op(A) X = alpha B or X op(A) = alpha B solved in B's place, A triangular
pub fn trsm<R: Real>(
    side: Side,
    uplo: UpLo,
    trans: Trans,
    diag: Diag,
    alpha: R,
    a: &[R::Cell],
    va: View,
    b: &mut [R::Cell],
    vb: View,
) -> Answer
    ensures { Gives (kind R.numbers) (Trsm.trsm (kind R.numbers) side uplo trans diag alpha (lent (kind R.numbers) a.now va) (lent (kind R.numbers) b.old vb)) result b.new }
{
    lines::trsm::<R, LANES>(side, uplo, trans, diag, alpha, a, va, b, vb)
}
