// trsv.

ghost use Rattle.number.specs.Kind.{kind};
ghost use Rattle.slabs.specs.Elem.{lent};
ghost use Rattle.blas.specs.Outcome.{Gives};
ghost use Rattle.blas.specs.Trsv;

use kinds::Real;
use triangle_lines::trsv as lines;
use view::{Answer, Diag, Trans, UpLo, View};

// op(A) x = b solved, x holding b, A triangular
pub fn trsv<R: Real>(
    uplo: UpLo,
    trans: Trans,
    diag: Diag,
    a: &[R::Cell],
    va: View,
    x: &mut [R::Cell],
    vx: View,
) -> Answer
    ensures { Gives (kind R.numbers) (Trsv.trsv (kind R.numbers) uplo trans diag (lent (kind R.numbers) a.now va) (lent (kind R.numbers) x.old vx)) result x.new }
{
    lines::trsv::<R>(uplo, trans, diag, a, va, x, vx)
}
