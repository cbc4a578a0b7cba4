// One unknown of some lines, solved; the pivots that are zero.

ghost use Rattle.std.specs.Prelude.{◌≡◌, ◌≤◌, ◌<◌, ◌+◌, ◌-◌};
ghost use Rattle.number.specs.Kind.{kind};
ghost use Rattle.slabs.specs.Eight.{lane, Lanes};
ghost use Rattle.slabs.specs.Elem.{elem, Within};
ghost use Rattle.blas.specs.Substitution.{minus_terms};
ghost use Rattle.triangle_plan.specs.Walk.{walk};
ghost use Rattle.triangle_plan.specs.Triangles.{coefficient, times_if};
ghost use Rattle.triangle_plan.specs.Ready.{LinesReady, Pivots};
ghost use Rattle.triangle_plan.specs.Multiply as multiply;
ghost use Rattle.triangle_plan.specs.Solve as solve;

use crate::lanes::{lanes_at, over_lanes, put_lanes, times_lanes};
use kinds::Number;
use slabs::{elem, elem_conj, minus_lanes};
use triangle_plan::{System, in_order, least_solved};
use view::Diag;

// A number for each line from l on, less n terms of its unknown q, from `from` on.
#[tactic(auto, using(crate::proofs::Steps::shown))]
fn reduce<N: Number, const W: usize>(
    sys: System,
    a: &[N::Cell],
    b: &[N::Cell],
    q: usize,
    l: usize,
    from: usize,
    n: usize,
    xs: [N; W],
) -> [N; W]
    requires ready { LinesReady sys (N.numbers.count a.now) (N.numbers.count b.now) q l W }
    requires room { from + n ≤ sys.b.rows }
    ensures { Lanes (kind N.numbers) W result (λ t. minus_terms (kind N.numbers) (lane (kind N.numbers) xs t) (multiply.line_term (kind N.numbers) sys a.now b.now q (l + t)) from n) }
{
    let mut rest = xs;
    for p in from..from + n {
        rest = minus_lanes(
            elem_conj(sys.conjugated, a, sys.a, q, p),
            b,
            sys.b,
            p,
            l,
            rest,
        );
    }
    rest
}

// Each number divided by pivot q.
fn by_pivot<N: Number, const W: usize>(sys: System, a: &[N::Cell], q: usize, xs: [N; W]) -> [N; W]
    requires { Within sys.a (N.numbers.count a.now) q q }
    ensures { Lanes (kind N.numbers) W result (λ t. solve.by_diag (kind N.numbers) sys.diag (coefficient (kind N.numbers) sys a.now q q) (lane (kind N.numbers) xs t)) }
{
    match sys.diag {
        Diag::NonUnit => over_lanes(xs, elem_conj(sys.conjugated, a, sys.a, q, q)),
        Diag::Unit => xs,
    }
}

// Whether pivot q is zero.
fn zero_pivot<N: Number>(sys: System, a: &[N::Cell], q: usize) -> bool
    requires { Within sys.a (N.numbers.count a.now) q q }
    ensures { result ≡ solve.zero_diag (kind N.numbers) sys.diag (elem (kind N.numbers) a.now sys.a q q) }
{
    match sys.diag {
        Diag::NonUnit => elem::<N>(a, sys.a, q, q).is_zero(),
        Diag::Unit => false,
    }
}

// The unknown that comes after k others, of the W lines from l on solved in those from l + first to before l + end.
#[inline(always)]
pub(crate) fn solve_lanes<N: Number, const W: usize>(
    sys: System,
    alpha: Option<N>,
    a: &[N::Cell],
    b: &mut [N::Cell],
    k: usize,
    l: usize,
    first: usize,
    end: usize,
)
    requires ready { LinesReady sys (N.numbers.count a.now) (N.numbers.count b.old) k l W }
    requires order { (first ≤ end) × (end ≤ W) }
    ensures { b.new ≡ walk (end - first) (λ i. solve.solve_unknown (kind N.numbers) sys (times_if (kind N.numbers) alpha) a.now k (l + (first + i))) b.old }
{
    let q = in_order(sys.last, sys.b.rows, k);
    let from = least_solved(sys.last, sys.b.rows, k);
    let sides: [N; W] = lanes_at(b, sys.b, q, l);
    let xs = times_lanes(alpha, sides);
    let rest = reduce(sys, a, b, q, l, from, k, xs);
    let ys = by_pivot(sys, a, q, rest);
    put_lanes(b, sys.b, q, l, first, end, ys);
}

// Whether the pivot of the unknown that comes after k others is zero.
#[tactic(auto, unfolding(triangle_plan::specs::Solve::zero_after))]
pub(crate) fn meets_zero<N: Number>(sys: System, a: &[N::Cell], k: usize) -> bool
    requires { Pivots sys (N.numbers.count a.now) × (k < sys.b.rows) }
    ensures { result ≡ solve.zero_after (kind N.numbers) sys a.now k }
{
    let q = in_order(sys.last, sys.b.rows, k);
    zero_pivot::<N>(sys, a, q)
}

// How many unknowns come before the first zero pivot.
pub(crate) fn first_zero<N: Number>(sys: System, a: &[N::Cell]) -> usize
    requires { Pivots sys (N.numbers.count a.now) }
    ensures { result ≡ solve.first_zero (kind N.numbers) sys a.now }
{
    for k in 0..sys.b.rows {
        if meets_zero::<N>(sys, a, k) {
            return k;
        }
    }
    sys.b.rows
}
