// her.

ghost use Rattle.std.specs.Prelude.{◌≡◌, ◌<◌};
ghost use Rattle.number.specs.Kind.{kind};
ghost use Rattle.view.specs.Triangle.{in_triangle};
ghost use Rattle.slabs.specs.Elem.{elem, lent, Within};
ghost use Rattle.slabs.specs.Update.{replaced, update_row, update};
ghost use Rattle.blas.specs.Outcome.{Gives};
ghost use Rattle.blas.specs.Her;
ghost use Rattle.rank_plan.specs.Change.{add_one};
ghost use Rattle.rank_plan.specs.Ready.{SquareWithin};

use crate::column::Column;
use call_check::check_her;
use call_check::quick::quick_her;
use kinds::Number;
use slabs::place;
use view::{Answer, UpLo, View};

// Element (i, j) of her's target, where w is alpha·xi.
#[inline(always)]
fn her_entry<N: Number>(w: N, x: &Column<N>, a: &mut [N::Cell], va: View, i: usize, j: usize)
    requires col { j < x.now.view.rows }
    requires inside { Within va (N.numbers.count a.old) i j }
    ensures { let K = kind N.numbers in a.new ≡ replaced K va i j (add_one K w (elem K x.now.slab.now x.now.view) j) a.old }
{
    let t = place::<N>(a, va, i, j);
    let old = N::get(a, t);
    N::put(a, t, old.add(w.mul(x.get(j).conj())));
}

// Row i of her's target, which has as many rows and columns as x has elements.
#[inline(always)]
fn her_row<N: Number>(
    uplo: UpLo,
    alpha: N::Factor,
    x: &Column<N>,
    a: &mut [N::Cell],
    va: View,
    i: usize,
)
    requires square { SquareWithin va (N.numbers.count a.old) }
    requires long { x.now.view.rows ≡ va.rows }
    requires row { i < va.rows }
    ensures { let K = kind N.numbers in a.new ≡ update_row K va (in_triangle uplo) (Her.her_change K alpha (elem K x.now.slab.now x.now.view)) i va.cols a.old }
{
    let w = x.get(i).scale_real(alpha);
    for j in uplo.first_col(i)..uplo.end_col(i, va.rows) {
        her_entry(w, x, a, va, i, j);
    }
}

// The whole of her's target.
#[inline(always)]
fn her_rows<N: Number>(uplo: UpLo, alpha: N::Factor, x: &Column<N>, a: &mut [N::Cell], va: View)
    requires square { SquareWithin va (N.numbers.count a.old) }
    requires long { x.now.view.rows ≡ va.rows }
    ensures { let K = kind N.numbers in a.new ≡ update K va (in_triangle uplo) (Her.her_change K alpha (elem K x.now.slab.now x.now.view)) a.old }
{
    for i in 0..va.rows {
        her_row(uplo, alpha, x, a, va, i);
    }
}

// A ← A + alpha x xᴴ, in the named triangle, alpha real
#[inline(always)]
pub fn her<N: Number>(
    uplo: UpLo,
    alpha: N::Factor,
    x: &[N::Cell],
    vx: View,
    a: &mut [N::Cell],
    va: View,
) -> Answer
    ensures { let K = kind N.numbers in Gives K (Her.her K uplo alpha (lent K x.now vx) (lent K a.old va)) result a.new }
{
    let lx = N::count(x);
    let la = N::count(a);
    let quick = quick_her(vx, lx, va, la);
    let answer = check_her(quick, vx, lx, va, la);
    if answer.passed() {
        let x: Column<N> = Column {
            slab: x,
            view: vx.column(va.rows),
        };
        her_rows(uplo, alpha, &x, a, va);
    }
    answer
}
