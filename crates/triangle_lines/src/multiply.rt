// The product in its place, element after element, each in W lines at a time.

ghost use Rattle.std.specs.Prelude.{◌≡◌, ◌≤◌, ◌<◌, ◌+◌, ◌-◌};
ghost use Rattle.number.specs.Kind.{kind};
ghost use Rattle.triangle_plan.specs.Walk.{walk};
ghost use Rattle.triangle_plan.specs.Triangles.{times_if};
ghost use Rattle.triangle_plan.specs.Ready.{LinesReady, Ready, Taken, Wide};
ghost use Rattle.triangle_plan.specs.Multiply as multiply;

use crate::lanes::{gain, put_lanes, times_lanes};
use crate::line::line_sums;
use kinds::Number;
use triangle_plan::{System, in_order};

// The element that comes after k others, multiplied in the last of W lines: of those from l on, the ones from l + first on.
#[inline(always)]
fn multiply_lanes<N: Number, const W: usize>(
    sys: System,
    alpha: Option<N>,
    a: &[N::Cell],
    b: &mut [N::Cell],
    k: usize,
    l: usize,
    first: usize,
)
    requires ready { LinesReady sys (N.numbers.count a.now) (N.numbers.count b.old) k l W }
    requires last { first ≤ W }
    ensures { b.new ≡ walk (W - first) (λ i. multiply.multiply_one (kind N.numbers) sys a.now (times_if (kind N.numbers) alpha) k (l + (first + i))) b.old }
{
    let q = in_order(!sys.last, sys.b.rows, k);
    let sums: [N; W] = line_sums(sys, a, b, q, l);
    let xs = times_lanes(alpha, sums);
    put_lanes(b, sys.b, q, l, first, W, xs);
}

// The element that comes after k others, in every line.
#[tactic(auto, using(crate::proofs::Steps::walks))]
fn multiply_across<N: Number, const W: usize>(
    sys: System,
    alpha: Option<N>,
    a: &[N::Cell],
    b: &mut [N::Cell],
    k: usize,
)
    requires ready { Ready sys (N.numbers.count a.now) (N.numbers.count b.old) }
    requires element { k < sys.b.rows }
    requires lines { Taken W sys.b.cols }
    ensures { b.new ≡ multiply.multiply_across (kind N.numbers) sys a.now (times_if (kind N.numbers) alpha) k b.old }
{
    let n = sys.b.cols;
    for l in (0..n).step_by(W) {
        let from = l.min(n - W);
        multiply_lanes::<N, W>(sys, alpha, a, b, k, from, l - from);
    }
}

// The same, line by line.
#[tactic(auto, using(crate::proofs::Steps::walks))]
fn multiply_each<N: Number>(
    sys: System,
    alpha: Option<N>,
    a: &[N::Cell],
    b: &mut [N::Cell],
    k: usize,
)
    requires ready { Ready sys (N.numbers.count a.now) (N.numbers.count b.old) }
    requires element { k < sys.b.rows }
    ensures { b.new ≡ multiply.multiply_across (kind N.numbers) sys a.now (times_if (kind N.numbers) alpha) k b.old }
{
    for l in 0..sys.b.cols {
        multiply_lanes::<N, 1>(sys, alpha, a, b, k, l, 0);
    }
}

// Every element in every line.
#[tactic(auto, using(crate::proofs::Steps::walks))]
fn multiply_all<N: Number, const W: usize>(
    sys: System,
    alpha: Option<N>,
    a: &[N::Cell],
    b: &mut [N::Cell],
)
    requires ready { Ready sys (N.numbers.count a.now) (N.numbers.count b.old) }
    requires lines { Taken W sys.b.cols }
    ensures { b.new ≡ multiply.multiply_all (kind N.numbers) sys a.now (times_if (kind N.numbers) alpha) b.old }
{
    for k in 0..sys.b.rows {
        multiply_across::<N, W>(sys, alpha, a, b, k);
    }
}

// The same, line by line.
#[tactic(auto, using(crate::proofs::Steps::walks))]
fn multiply_all_each<N: Number>(sys: System, alpha: Option<N>, a: &[N::Cell], b: &mut [N::Cell])
    requires ready { Ready sys (N.numbers.count a.now) (N.numbers.count b.old) }
    ensures { b.new ≡ multiply.multiply_all (kind N.numbers) sys a.now (times_if (kind N.numbers) alpha) b.old }
{
    for k in 0..sys.b.rows {
        multiply_each::<N>(sys, alpha, a, b, k);
    }
}

// All of a vector.
#[tactic(auto, using(crate::proofs::Steps::walks))]
pub fn multiply_vector<N: Number>(sys: System, a: &[N::Cell], b: &mut [N::Cell])
    requires ready { Ready sys (N.numbers.count a.now) (N.numbers.count b.old) }
    requires one { sys.b.cols ≡ 1 }
    ensures { b.new ≡ multiply.multiply_all (kind N.numbers) sys a.now (λ x. x) b.old }
{
    for k in 0..sys.b.rows {
        multiply_lanes::<N, 1>(sys, None, a, b, k, 0, 0);
    }
}

// All of B times alpha where there is one: W lines at a time where there are as many, and four of eight's, where they gain by it; else line
// by line.
pub fn multiply<N: Number, const W: usize>(
    sys: System,
    alpha: Option<N>,
    a: &[N::Cell],
    b: &mut [N::Cell],
)
    requires ready { Ready sys (N.numbers.count a.now) (N.numbers.count b.old) }
    requires wide { Wide W }
    ensures { b.new ≡ multiply.multiply_all (kind N.numbers) sys a.now (times_if (kind N.numbers) alpha) b.old }
{
    if W <= sys.b.cols && gain(W, sys.b.cols, 4) {
        multiply_all::<N, W>(sys, alpha, a, b);
    } else if 8 <= W && 4 <= sys.b.cols {
        multiply_all::<N, 4>(sys, alpha, a, b);
    } else {
        multiply_all_each::<N>(sys, alpha, a, b);
    }
}
