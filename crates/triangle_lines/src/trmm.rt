// trmm.

ghost use Rattle.std.specs.Prelude.{◌<◌};
ghost use Rattle.number.specs.Kind.{kind};
ghost use Rattle.slabs.specs.Elem.{lent};
ghost use Rattle.blas.specs.Outcome.{Gives};
ghost use Rattle.blas.specs.Trmm;
ghost use Rattle.triangle_plan.specs.Ready.{Wide};

use crate::multiply::multiply;
use call_check::check_trmm;
use call_check::quick::quick_trmm;
use kinds::Number;
use triangle_plan::system_of;
use view::{Answer, Diag, Side, Trans, UpLo, View};

// B ← alpha op(A) B or alpha B op(A), A triangular
pub fn trmm<N: Number, const W: usize>(
    side: Side,
    uplo: UpLo,
    trans: Trans,
    diag: Diag,
    alpha: N,
    a: &[N::Cell],
    va: View,
    b: &mut [N::Cell],
    vb: View,
) -> Answer
    requires { Wide W }
    ensures { Gives (kind N.numbers) (Trmm.trmm (kind N.numbers) side uplo trans diag alpha (lent (kind N.numbers) a.now va) (lent (kind N.numbers) b.old vb)) result b.new }
{
    let la = N::count(a);
    let lb = N::count(b);
    let quick = quick_trmm(side, va, la, vb, lb);
    let answer = check_trmm(quick, side, va, la, vb, lb);
    if answer.passed() {
        let sys = system_of(side, uplo, trans, diag, va, vb);
        multiply::<N, W>(sys, Some(alpha), a, b);
    }
    answer
}
