// trsv.

ghost use Rattle.number.specs.Kind.{complex};
ghost use Rattle.slabs.specs.Elem.{lent};
ghost use Rattle.blas.specs.Outcome.{Gives};
ghost use Rattle.blas.specs.Trsv;

use kinds::Complex;
use triangle_lines::trsv as lines;
use view::{Answer, Diag, Trans, UpLo, View};

// op(A) x = b solved, x holding b, A triangular
pub fn trsv(
    uplo: UpLo,
    trans: Trans,
    diag: Diag,
    a: &[f64],
    va: View,
    x: &mut [f64],
    vx: View,
) -> Answer
    ensures { Gives complex (Trsv.trsv complex uplo trans diag (lent complex a.now va) (lent complex x.old vx)) result x.new }
{
    lines::trsv::<Complex>(uplo, trans, diag, a, va, x, vx)
}
