// trmv, element by element.

ghost use Rattle.number.specs.Kind.{kind};
ghost use Rattle.slabs.specs.Elem.{lent};
ghost use Rattle.blas.specs.Outcome.{Gives};
ghost use Rattle.blas.specs.Trmv;

use crate::multiply::multiply_vector;
use call_check::check_trmv;
use call_check::quick::quick_trmv;
use kinds::Number;
use triangle_plan::system_of;
use view::{Answer, Diag, Side, Trans, UpLo, View};

// x ← op(A) x, A triangular
pub fn trmv<N: Number>(
    uplo: UpLo,
    trans: Trans,
    diag: Diag,
    a: &[N::Cell],
    va: View,
    x: &mut [N::Cell],
    vx: View,
) -> Answer
    ensures { Gives (kind N.numbers) (Trmv.trmv (kind N.numbers) uplo trans diag (lent (kind N.numbers) a.now va) (lent (kind N.numbers) x.old vx)) result x.new }
{
    let la = N::count(a);
    let lx = N::count(x);
    let quick = quick_trmv(va, la, vx, lx);
    let answer = check_trmv(quick, va, la, vx, lx);
    if answer.passed() {
        let sys = system_of(Side::Left, uplo, trans, diag, va, vx.column(va.rows));
        multiply_vector::<N>(sys, a, x);
    }
    answer
}
