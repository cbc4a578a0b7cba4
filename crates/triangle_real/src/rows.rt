// The product of a triangle by a vector in its place, eight rows at a time.

ghost use Rattle.std.specs.Prelude.{◌≡◌, ◌≤◌, ◌+◌, ◌-◌};
ghost use Rattle.number.specs.Kind.{kind};
ghost use Rattle.slabs.specs.Eight.{lane, Lanes};
ghost use Rattle.slabs.specs.Elem.{Within};
ghost use Rattle.slabs.specs.Run.{plus_terms};
ghost use Rattle.triangle_plan.specs.Walk.{walk};
ghost use Rattle.triangle_plan.specs.Lanes.{put_rows};
ghost use Rattle.triangle_plan.specs.Ready.{Ready, ReadyAt, RowsReady};
ghost use Rattle.triangle_plan.specs.Multiply as multiply;

use kinds::Real;
use slabs::{elem, place, plus_lanes, zeros};
use triangle_lines::line::{add_run, own_weight};
use triangle_plan::{System, eight_from, in_order};
use view::View;

// Eight numbers, each and n terms more of its row, from `from` on: number t of row q + t.
#[tactic(auto, using(crate::proofs::Steps::shown))]
fn add_rows<R: Real>(
    sys: System,
    a: &[R::Cell],
    b: &[R::Cell],
    q: usize,
    from: usize,
    n: usize,
    xs: [R; 8],
) -> [R; 8]
    requires ready { RowsReady sys (R.numbers.count a.now) (R.numbers.count b.now) q }
    requires room { from + n ≤ sys.b.rows }
    ensures { Lanes (kind R.numbers) 8 result (λ t. plus_terms (kind R.numbers) (lane (kind R.numbers) xs t) (multiply.line_term (kind R.numbers) sys a.now b.now (q + t) 0) from n) }
{
    let turned = sys.a.transposed();
    let mut sums = xs;
    for p in from..from + n {
        sums = plus_lanes(elem(b, sys.b, p, 0), a, turned, p, q, sums);
    }
    sums
}

// What element q brings into itself.
fn own_term<R: Real>(sys: System, a: &[R::Cell], b: &[R::Cell], q: usize) -> R
    requires { ReadyAt sys (R.numbers.count a.now) (R.numbers.count b.now) q 0 }
    ensures { result ≡ multiply.own (kind R.numbers) sys a.now b.now q 0 }
{
    let weight: R = own_weight(sys, a, q);
    weight.mul(elem(b, sys.b, q, 0))
}

// The own term of element q, and the n terms behind it.
fn own_first<R: Real>(sys: System, a: &[R::Cell], b: &[R::Cell], q: usize, n: usize) -> R
    requires ready { ReadyAt sys (R.numbers.count a.now) (R.numbers.count b.now) q 0 }
    requires room { q + 1 + n ≤ sys.b.rows }
    ensures { result ≡ multiply.own_first (kind R.numbers) sys a.now b.now q 0 n }
{
    let own: R = own_term(sys, a, b, q);
    let x = R::zero().add(own);
    let sums = add_run(sys, a, b, q, 0, q + 1, n, [x]);
    sums[0]
}

// x and the terms of element q from `from` on, the own one after those before it.
fn own_last<R: Real>(sys: System, a: &[R::Cell], b: &[R::Cell], q: usize, from: usize, x: R) -> R
    requires ready { ReadyAt sys (R.numbers.count a.now) (R.numbers.count b.now) q 0 }
    requires before { from ≤ q }
    ensures { result ≡ multiply.own_last (kind R.numbers) sys a.now b.now q 0 x from (q - from) }
{
    let sums = add_run(sys, a, b, q, 0, from, q - from, [x]);
    let own: R = own_term(sys, a, b, q);
    sums[0].add(own)
}

// Of the eight rows from q on, each its own term and those behind it among the eight.
#[tactic(auto, using(crate::proofs::Steps::shown))]
fn own_first_eight<R: Real>(sys: System, a: &[R::Cell], b: &[R::Cell], q: usize) -> [R; 8]
    requires { RowsReady sys (R.numbers.count a.now) (R.numbers.count b.now) q }
    ensures { Lanes (kind R.numbers) 8 result (λ t. multiply.own_first (kind R.numbers) sys a.now b.now (q + t) 0 (7 - t)) }
{
    let mut next = zeros();
    for t in 0..8 {
        next[t] = own_first(sys, a, b, q + t, 7 - t);
    }
    next
}

// Of the eight rows from q on, each its number, the terms before its own among the eight, and its own.
#[tactic(auto, using(crate::proofs::Steps::shown))]
fn own_last_eight<R: Real>(
    sys: System,
    a: &[R::Cell],
    b: &[R::Cell],
    q: usize,
    xs: [R; 8],
) -> [R; 8]
    requires { RowsReady sys (R.numbers.count a.now) (R.numbers.count b.now) q }
    ensures { Lanes (kind R.numbers) 8 result (λ t. multiply.own_last (kind R.numbers) sys a.now b.now (q + t) 0 (lane (kind R.numbers) xs t) q (q + t - q)) }
{
    let mut next = xs;
    for t in 0..8 {
        next[t] = own_last(sys, a, b, q + t, q, next[t]);
    }
    next
}

// Each of the eight elements from q on of the product.
fn row_sums<R: Real>(sys: System, a: &[R::Cell], b: &[R::Cell], q: usize) -> [R; 8]
    requires { RowsReady sys (R.numbers.count a.now) (R.numbers.count b.now) q }
    ensures { Lanes (kind R.numbers) 8 result (λ t. multiply.line_sum (kind R.numbers) sys a.now b.now (q + t) 0) }
{
    if sys.last {
        let near = own_first_eight(sys, a, b, q);
        add_rows(sys, a, b, q, q + 8, sys.b.rows - 8 - q, near)
    } else {
        let far = add_rows(sys, a, b, q, 0, q, zeros());
        own_last_eight(sys, a, b, q, far)
    }
}

// Eight numbers put into the rows of a column from q on: those that come after `first` others, the last first or the first.
fn put_rows<R: Real>(last: bool, b: &mut [R::Cell], v: View, q: usize, first: usize, xs: [R; 8])
    requires { Within v (R.numbers.count b.old) (q + 7) 0 × (first ≤ 8) }
    ensures { b.new ≡ put_rows (kind R.numbers) last v q first xs (8 - first) b.old }
{
    for i in first..8 {
        let t = in_order(last, 8, i);
        let at = place::<R>(b, v, q + t, 0);
        R::put(b, at, xs[t]);
    }
}

// The last of eight elements of a vector, multiplied: of those that come after k others, the ones after k + first others.
fn multiply_block<R: Real>(sys: System, a: &[R::Cell], b: &mut [R::Cell], k: usize, first: usize)
    requires { RowsReady sys (R.numbers.count a.now) (R.numbers.count b.old) k × (first ≤ 8) }
    ensures { b.new ≡ walk (8 - first) (λ i. multiply.multiply_one (kind R.numbers) sys a.now (λ x. x) (k + (first + i)) 0) b.old }
{
    let q = eight_from(!sys.last, sys.b.rows, k);
    let xs: [R; 8] = row_sums(sys, a, b, q);
    put_rows(!sys.last, b, sys.b, q, first, xs);
}

// All of a vector.
#[tactic(auto, using(crate::proofs::Steps::walks))]
pub(crate) fn multiply_rows<R: Real>(sys: System, a: &[R::Cell], b: &mut [R::Cell])
    requires ready { Ready sys (R.numbers.count a.now) (R.numbers.count b.old) }
    requires one { sys.b.cols ≡ 1 }
    requires room { 8 ≤ sys.b.rows }
    ensures { b.new ≡ multiply.multiply_all (kind R.numbers) sys a.now (λ x. x) b.old }
{
    let m = sys.b.rows;
    for k in (0..m).step_by(8) {
        let from = k.min(m - 8);
        multiply_block::<R>(sys, a, b, from, k - from);
    }
}
