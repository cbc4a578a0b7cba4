// trsm.

ghost use Rattle.std.specs.Prelude.{◌≡◌, ◌<◌};
ghost use Rattle.number.specs.Kind.{kind};
ghost use Rattle.view.specs.Steps.{Accepted};
ghost use Rattle.slabs.specs.Elem.{elem, lent};
ghost use Rattle.blas.specs.Outcome.{Gives};
ghost use Rattle.blas.specs.Trsm.{times_alpha, sided_solve};
ghost use Rattle.blas.specs.Trsm;
ghost use Rattle.triangle_plan.specs.Triangles as triangles;
ghost use Rattle.triangle_plan.specs.Ready.{Sided, Wide};

use crate::solve::solve_lines;
use call_check::check_trsm;
use call_check::quick::quick_trmm;
use kinds::Number;
use slabs::{elem, place};
use triangle_plan::{is_left, system_of};
use view::{Answer, Diag, Side, Trans, UpLo, View};

// All of B times alpha.
#[tactic(auto, using(crate::proofs::Steps::rows))]
fn scale<N: Number>(alpha: N, b: &mut [N::Cell], vb: View)
    requires { Accepted vb (N.numbers.count b.old) }
    ensures { b.new ≡ times_alpha (kind N.numbers) alpha vb b.old }
{
    for i in 0..vb.rows {
        for j in 0..vb.cols {
            let x: N = elem(b, vb, i, j);
            let at = place::<N>(b, vb, i, j);
            N::put(b, at, alpha.mul(x));
        }
    }
}

// All of B times alpha on the right side, which multiplies before it solves; the left side multiplies where it solves.
fn scale_right<N: Number>(side: Side, alpha: N, b: &mut [N::Cell], vb: View)
    requires { Accepted vb (N.numbers.count b.old) }
    ensures { b.new ≡ triangles.scaled_right (kind N.numbers) side alpha vb b.old }
{
    match side {
        Side::Left => {}
        Side::Right => scale(alpha, b, vb),
    }
}

// The solve of a side, with alpha.
fn sided<N: Number, const W: usize>(
    side: Side,
    uplo: UpLo,
    t: Trans,
    diag: Diag,
    alpha: N,
    a: &[N::Cell],
    va: View,
    b: &mut [N::Cell],
    vb: View,
) -> Answer
    requires ready { Sided side va (N.numbers.count a.now) vb (N.numbers.count b.old) }
    requires wide { Wide W }
    ensures { Gives (kind N.numbers) (sided_solve (kind N.numbers) side uplo t diag alpha (elem (kind N.numbers) a.now va) vb b.old) result b.new }
{
    scale_right(side, alpha, b, vb);
    let sys = system_of(side, uplo, t, diag, va, vb);
    let begin = is_left(side).then_some(alpha);
    solve_lines::<N, W>(sys, begin, a, b)
}

// op(A) X = alpha B or X op(A) = alpha B solved in B's place, A triangular
pub fn trsm<N: Number, const W: usize>(
    side: Side,
    uplo: UpLo,
    trans: Trans,
    diag: Diag,
    alpha: N,
    a: &[N::Cell],
    va: View,
    b: &mut [N::Cell],
    vb: View,
) -> Answer
    requires { Wide W }
    ensures { Gives (kind N.numbers) (Trsm.trsm (kind N.numbers) side uplo trans diag alpha (lent (kind N.numbers) a.now va) (lent (kind N.numbers) b.old vb)) result b.new }
{
    let la = N::count(a);
    let lb = N::count(b);
    let quick = quick_trmm(side, va, la, vb, lb);
    let answer = check_trsm(quick, side, va, la, vb, lb);
    if answer.passed() {
        sided::<N, W>(side, uplo, trans, diag, alpha, a, va, b, vb)
    } else {
        answer
    }
}
