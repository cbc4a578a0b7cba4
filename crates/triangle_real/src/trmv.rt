// trmv, eight rows at a time where there are eight.

ghost use Rattle.std.specs.Prelude.{◌≡◌};
ghost use Rattle.number.specs.Kind.{kind};
ghost use Rattle.slabs.specs.Elem.{lent};
ghost use Rattle.blas.specs.Outcome.{Gives};
ghost use Rattle.blas.specs.Trmv;
ghost use Rattle.triangle_plan.specs.Ready.{Ready};
ghost use Rattle.triangle_plan.specs.Multiply as multiply;

use crate::rows::multiply_rows;
use call_check::check_trmv;
use call_check::quick::quick_trmv;
use kinds::Real;
use triangle_lines::multiply::multiply_vector;
use triangle_plan::{System, system_of};
use view::{Answer, Diag, Side, Trans, UpLo, View};

// All of a vector.
fn multiply_all<R: Real>(sys: System, a: &[R::Cell], b: &mut [R::Cell])
    requires ready { Ready sys (R.numbers.count a.now) (R.numbers.count b.old) }
    requires one { sys.b.cols ≡ 1 }
    ensures { b.new ≡ multiply.multiply_all (kind R.numbers) sys a.now (λ x. x) b.old }
{
    if 8 <= sys.b.rows {
        multiply_rows::<R>(sys, a, b);
    } else {
        multiply_vector::<R>(sys, a, b);
    }
}

// x ← op(A) x, A triangular
pub fn trmv<R: Real>(
    uplo: UpLo,
    trans: Trans,
    diag: Diag,
    a: &[R::Cell],
    va: View,
    x: &mut [R::Cell],
    vx: View,
) -> Answer
    ensures { Gives (kind R.numbers) (Trmv.trmv (kind R.numbers) uplo trans diag (lent (kind R.numbers) a.now va) (lent (kind R.numbers) x.old vx)) result x.new }
{
    let la = R::count(a);
    let lx = R::count(x);
    let quick = quick_trmv(va, la, vx, lx);
    let answer = check_trmv(quick, va, la, vx, lx);
    if answer.passed() {
        let sys = system_of(Side::Left, uplo, trans, diag, va, vx.column(va.rows));
        multiply_all::<R>(sys, a, x);
    }
    answer
}
