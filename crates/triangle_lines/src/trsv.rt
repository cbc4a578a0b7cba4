// trsv.

ghost use Rattle.std.specs.Prelude.{◌≡◌};
ghost use Rattle.number.specs.Kind.{kind};
ghost use Rattle.slabs.specs.Elem.{lent};
ghost use Rattle.blas.specs.Outcome.{Gives};
ghost use Rattle.blas.specs.Trsv;
ghost use Rattle.triangle_plan.specs.Ready.{Ready};
ghost use Rattle.triangle_plan.specs.Solve as solve;

use crate::unknown::{meets_zero, solve_lanes};
use call_check::check_trsv;
use call_check::quick::quick_trmv;
use kinds::Number;
use triangle_plan::{System, system_of};
use view::{Answer, Diag, Side, Trans, UpLo, View};

// The unknowns of a vector, which no alpha multiplies, up to the first zero pivot.
fn solve_vector<N: Number>(sys: System, a: &[N::Cell], b: &mut [N::Cell]) -> Answer
    requires ready { Ready sys (N.numbers.count a.now) (N.numbers.count b.old) }
    requires one { sys.b.cols ≡ 1 }
    ensures { solve.Solved (kind N.numbers) sys (λ x. x) a.now b.old result b.new }
{
    for k in 0..sys.b.rows {
        if meets_zero::<N>(sys, a, k) {
            return Answer::Singular;
        }
        solve_lanes::<N, 1>(sys, None, a, b, k, 0, 0, 1);
    }
    Answer::Done
}

// op(A) x = b solved, x holding b, A triangular
pub fn trsv<N: Number>(
    uplo: UpLo,
    trans: Trans,
    diag: Diag,
    a: &[N::Cell],
    va: View,
    x: &mut [N::Cell],
    vx: View,
) -> Answer
    ensures { Gives (kind N.numbers) (Trsv.trsv (kind N.numbers) uplo trans diag (lent (kind N.numbers) a.now va) (lent (kind N.numbers) x.old vx)) result x.new }
{
    let la = N::count(a);
    let lx = N::count(x);
    let quick = quick_trmv(va, la, vx, lx);
    let answer = check_trsv(quick, va, la, vx, lx);
    if answer.passed() {
        let sys = system_of(Side::Left, uplo, trans, diag, va, vx.column(va.rows));
        solve_vector::<N>(sys, a, x)
    } else {
        answer
    }
}
