// her2. It differs from her by a second vector and a second product, and not by a type or a constant.

ghost use Rattle.std.specs.Prelude.{◌≡◌, ◌<◌};
ghost use Rattle.number.specs.Kind.{kind};
ghost use Rattle.view.specs.Triangle.{in_triangle};
ghost use Rattle.slabs.specs.Elem.{elem, lent, Within};
ghost use Rattle.slabs.specs.Update.{replaced, update_row, update};
ghost use Rattle.blas.specs.Outcome.{Gives};
ghost use Rattle.blas.specs.Her2;
ghost use Rattle.rank_plan.specs.Change.{add_two};
ghost use Rattle.rank_plan.specs.Ready.{SquareWithin};

use crate::column::Column;
use call_check::check_her2;
use call_check::quick::quick_her2;
use kinds::Number;
use slabs::place;
use view::{Answer, UpLo, View};

// Element (i, j) of her2's target, where w is alpha·xi and w2 is conj(alpha)·yi.
#[inline(always)]
fn her2_entry<N: Number>(
    w: N,
    w2: N,
    x: &Column<N>,
    y: &Column<N>,
    a: &mut [N::Cell],
    va: View,
    i: usize,
    j: usize,
)
    requires col_x { j < x.now.view.rows }
    requires col_y { j < y.now.view.rows }
    requires inside { Within va (N.numbers.count a.old) i j }
    ensures { let K = kind N.numbers in a.new ≡ replaced K va i j (add_two K w w2 (elem K x.now.slab.now x.now.view) (elem K y.now.slab.now y.now.view) j) a.old }
{
    let t = place::<N>(a, va, i, j);
    let old = N::get(a, t);
    let first = w.mul(y.get(j).conj());
    let second = w2.mul(x.get(j).conj());
    N::put(a, t, old.add(first).add(second));
}

// Row i of her2's target, which has as many rows and columns as x and y have elements.
#[inline(always)]
fn her2_row<N: Number>(
    uplo: UpLo,
    alpha: N,
    x: &Column<N>,
    y: &Column<N>,
    a: &mut [N::Cell],
    va: View,
    i: usize,
)
    requires square { SquareWithin va (N.numbers.count a.old) }
    requires long_x { x.now.view.rows ≡ va.rows }
    requires long_y { y.now.view.rows ≡ va.rows }
    requires row { i < va.rows }
    ensures { let K = kind N.numbers in a.new ≡ update_row K va (in_triangle uplo) (Her2.her2_change K alpha (elem K x.now.slab.now x.now.view) (elem K y.now.slab.now y.now.view)) i va.cols a.old }
{
    let w = alpha.mul(x.get(i));
    let conjugate = alpha.conj();
    let w2 = conjugate.mul(y.get(i));
    for j in uplo.first_col(i)..uplo.end_col(i, va.rows) {
        her2_entry(w, w2, x, y, a, va, i, j);
    }
}

// The whole of her2's target.
#[inline(always)]
fn her2_rows<N: Number>(
    uplo: UpLo,
    alpha: N,
    x: &Column<N>,
    y: &Column<N>,
    a: &mut [N::Cell],
    va: View,
)
    requires square { SquareWithin va (N.numbers.count a.old) }
    requires long_x { x.now.view.rows ≡ va.rows }
    requires long_y { y.now.view.rows ≡ va.rows }
    ensures { let K = kind N.numbers in a.new ≡ update K va (in_triangle uplo) (Her2.her2_change K alpha (elem K x.now.slab.now x.now.view) (elem K y.now.slab.now y.now.view)) a.old }
{
    for i in 0..va.rows {
        her2_row(uplo, alpha, x, y, a, va, i);
    }
}

// A ← A + alpha x yᴴ + conj(alpha) y xᴴ, in the named triangle
#[inline(always)]
pub fn her2<N: Number>(
    uplo: UpLo,
    alpha: N,
    x: &[N::Cell],
    vx: View,
    y: &[N::Cell],
    vy: View,
    a: &mut [N::Cell],
    va: View,
) -> Answer
    ensures { let K = kind N.numbers in Gives K (Her2.her2 K uplo alpha (lent K x.now vx) (lent K y.now vy) (lent K a.old va)) result a.new }
{
    let lx = N::count(x);
    let ly = N::count(y);
    let la = N::count(a);
    let quick = quick_her2(vx, lx, vy, ly, va, la);
    let answer = check_her2(quick, vx, lx, vy, ly, va, la);
    if answer.passed() {
        let x: Column<N> = Column {
            slab: x,
            view: vx.column(va.rows),
        };
        let y: Column<N> = Column {
            slab: y,
            view: vy.column(va.rows),
        };
        her2_rows(uplo, alpha, &x, &y, a, va);
    }
    answer
}
