// A solve in its place, unknown after unknown, each in W lines at a time.

ghost use Rattle.std.specs.Prelude.{◌≡◌, ◌≤◌, ◌<◌};
ghost use Rattle.number.specs.Kind.{kind};
ghost use Rattle.triangle_plan.specs.Triangles.{times_if};
ghost use Rattle.triangle_plan.specs.Ready.{Ready, Taken, Wide};
ghost use Rattle.triangle_plan.specs.Solve as solve;

use crate::lanes::gain;
use crate::unknown::{first_zero, solve_lanes};
use kinds::Number;
use triangle_plan::{System, lines_solved, solved, stops};
use view::Answer;

// The unknown that comes after k others, in the first n lines.
#[tactic(auto, using(crate::proofs::Steps::walks))]
fn solve_across<N: Number, const W: usize>(
    sys: System,
    alpha: Option<N>,
    a: &[N::Cell],
    b: &mut [N::Cell],
    n: usize,
    k: usize,
)
    requires ready { Ready sys (N.numbers.count a.now) (N.numbers.count b.old) }
    requires shown { (n ≤ sys.b.cols) × (k < sys.b.rows) }
    requires lines { Taken W sys.b.cols }
    ensures { b.new ≡ solve.solve_across (kind N.numbers) sys (times_if (kind N.numbers) alpha) a.now n k b.old }
{
    for l in (0..n).step_by(W) {
        let from = l.min(sys.b.cols - W);
        let end = n.min(from + W);
        solve_lanes::<N, W>(sys, alpha, a, b, k, from, l - from, end - from);
    }
}

// The same, line by line.
#[tactic(auto, using(crate::proofs::Steps::walks))]
fn solve_each<N: Number>(
    sys: System,
    alpha: Option<N>,
    a: &[N::Cell],
    b: &mut [N::Cell],
    n: usize,
    k: usize,
)
    requires ready { Ready sys (N.numbers.count a.now) (N.numbers.count b.old) }
    requires shown { (n ≤ sys.b.cols) × (k < sys.b.rows) }
    ensures { b.new ≡ solve.solve_across (kind N.numbers) sys (times_if (kind N.numbers) alpha) a.now n k b.old }
{
    for l in 0..n {
        solve_lanes::<N, 1>(sys, alpha, a, b, k, l, 0, 1);
    }
}

// The first m unknowns, one after another, each in the first n lines.
#[tactic(auto, using(crate::proofs::Steps::walks))]
fn solve_unknowns<N: Number, const W: usize>(
    sys: System,
    alpha: Option<N>,
    a: &[N::Cell],
    b: &mut [N::Cell],
    n: usize,
    m: usize,
)
    requires ready { Ready sys (N.numbers.count a.now) (N.numbers.count b.old) }
    requires shown { (n ≤ sys.b.cols) × (m ≤ sys.b.rows) }
    requires lines { Taken W sys.b.cols }
    ensures { b.new ≡ solve.solve_unknowns (kind N.numbers) sys (times_if (kind N.numbers) alpha) a.now n m b.old }
{
    for k in 0..m {
        solve_across::<N, W>(sys, alpha, a, b, n, k);
    }
}

// The same, line by line.
#[tactic(auto, using(crate::proofs::Steps::walks))]
fn solve_unknowns_each<N: Number>(
    sys: System,
    alpha: Option<N>,
    a: &[N::Cell],
    b: &mut [N::Cell],
    n: usize,
    m: usize,
)
    requires ready { Ready sys (N.numbers.count a.now) (N.numbers.count b.old) }
    requires shown { (n ≤ sys.b.cols) × (m ≤ sys.b.rows) }
    ensures { b.new ≡ solve.solve_unknowns (kind N.numbers) sys (times_if (kind N.numbers) alpha) a.now n m b.old }
{
    for k in 0..m {
        solve_each::<N>(sys, alpha, a, b, n, k);
    }
}

// The unknowns before the first zero pivot, in every line; where a left solve stops there, in the first line alone.
// W lines at a time where as many are solved, and four of eight's, where they gain by it; else line by line.
#[tactic(auto, using(crate::proofs::Steps::solved))]
pub(crate) fn solve_lines<N: Number, const W: usize>(
    sys: System,
    alpha: Option<N>,
    a: &[N::Cell],
    b: &mut [N::Cell],
) -> Answer
    requires ready { Ready sys (N.numbers.count a.now) (N.numbers.count b.old) }
    requires wide { Wide W }
    ensures { solve.Solved (kind N.numbers) sys (times_if (kind N.numbers) alpha) a.now b.old result b.new }
{
    let m = first_zero::<N>(sys, a);
    let stopped = stops(sys, m);
    let n = lines_solved(sys.side, stopped, sys.b.cols);
    if W <= n && gain(W, n, sys.b.rows) {
        solve_unknowns::<N, W>(sys, alpha, a, b, n, m);
    } else if 8 <= W && 4 <= n {
        solve_unknowns::<N, 4>(sys, alpha, a, b, n, m);
    } else {
        solve_unknowns_each::<N>(sys, alpha, a, b, n, m);
    }
    solved(stopped)
}
