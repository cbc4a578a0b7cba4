// trmm, eight lines at a time.

ghost use Rattle.number.specs.Kind.{kind};
ghost use Rattle.slabs.specs.Elem.{lent};
ghost use Rattle.blas.specs.Outcome.{Gives};
ghost use Rattle.blas.specs.Trmm;

use crate::LANES;
use kinds::Real;
use triangle_lines::trmm as lines;
use view::{Answer, Diag, Side, Trans, UpLo, View};

// B ← alpha op(A) B or alpha B op(A), A triangular
pub fn trmm<R: Real>(
    side: Side,
    uplo: UpLo,
    trans: Trans,
    diag: Diag,
    alpha: R,
    a: &[R::Cell],
    va: View,
    b: &mut [R::Cell],
    vb: View,
) -> Answer
    ensures { Gives (kind R.numbers) (Trmm.trmm (kind R.numbers) side uplo trans diag alpha (lent (kind R.numbers) a.now va) (lent (kind R.numbers) b.old vb)) result b.new }
{
    lines::trmm::<R, LANES>(side, uplo, trans, diag, alpha, a, va, b, vb)
}
