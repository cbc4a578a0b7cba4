// trmv.

ghost use Rattle.number.specs.Kind.{complex};
ghost use Rattle.slabs.specs.Elem.{lent};
ghost use Rattle.blas.specs.Outcome.{Gives};
ghost use Rattle.blas.specs.Trmv;

use kinds::Complex;
use triangle_lines::trmv as lines;
use view::{Answer, Diag, Trans, UpLo, View};

// x ← op(A) x, A triangular
pub fn trmv(
    uplo: UpLo,
    trans: Trans,
    diag: Diag,
    a: &[f64],
    va: View,
    x: &mut [f64],
    vx: View,
) -> Answer
    ensures { Gives complex (Trmv.trmv complex uplo trans diag (lent complex a.now va) (lent complex x.old vx)) result x.new }
{
    lines::trmv::<Complex>(uplo, trans, diag, a, va, x, vx)
}
