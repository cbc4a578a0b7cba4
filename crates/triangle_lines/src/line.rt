// The sums of a row of the triangle by some lines of the target: the row's own term comes first or last.

ghost use Rattle.std.specs.Prelude.{◌≡◌, ◌≤◌, ◌+◌};
ghost use Rattle.number.specs.Kind.{kind};
ghost use Rattle.slabs.specs.Eight.{lane, Lanes};
ghost use Rattle.slabs.specs.Elem.{Within};
ghost use Rattle.slabs.specs.Run.{plus_terms};
ghost use Rattle.triangle_plan.specs.Triangles.{coefficient};
ghost use Rattle.triangle_plan.specs.Ready.{LinesReady};
ghost use Rattle.triangle_plan.specs.Multiply as multiply;

use kinds::Number;
use slabs::{elem_conj, plus_lanes, zeros};
use triangle_plan::System;
use view::Diag;

// A number for each line from l on, and n terms more of its element q, from `from` on.
#[tactic(auto, using(crate::proofs::Steps::shown))]
pub fn add_run<N: Number, const W: usize>(
    sys: System,
    a: &[N::Cell],
    b: &[N::Cell],
    q: usize,
    l: usize,
    from: usize,
    n: usize,
    xs: [N; W],
) -> [N; W]
    requires ready { LinesReady sys (N.numbers.count a.now) (N.numbers.count b.now) q l W }
    requires room { from + n ≤ sys.b.rows }
    ensures { Lanes (kind N.numbers) W result (λ t. plus_terms (kind N.numbers) (lane (kind N.numbers) xs t) (multiply.line_term (kind N.numbers) sys a.now b.now q (l + t)) from n) }
{
    let mut sums = xs;
    for p in from..from + n {
        sums = plus_lanes(
            elem_conj(sys.conjugated, a, sys.a, q, p),
            b,
            sys.b,
            p,
            l,
            sums,
        );
    }
    sums
}

// What the diagonal weighs.
pub fn own_weight<N: Number>(sys: System, a: &[N::Cell], q: usize) -> N
    requires { Within sys.a (N.numbers.count a.now) q q }
    ensures { result ≡ multiply.own_diag (kind N.numbers) sys.diag (coefficient (kind N.numbers) sys a.now q q) }
{
    match sys.diag {
        Diag::NonUnit => elem_conj(sys.conjugated, a, sys.a, q, q),
        Diag::Unit => N::one(),
    }
}

// Element q of the product in the lines from l on.
#[inline(always)]
pub(crate) fn line_sums<N: Number, const W: usize>(
    sys: System,
    a: &[N::Cell],
    b: &[N::Cell],
    q: usize,
    l: usize,
) -> [N; W]
    requires { LinesReady sys (N.numbers.count a.now) (N.numbers.count b.now) q l W }
    ensures { Lanes (kind N.numbers) W result (λ t. multiply.line_sum (kind N.numbers) sys a.now b.now q (l + t)) }
{
    let weight: N = own_weight(sys, a, q);
    let none = zeros();
    if sys.last {
        let own = plus_lanes(weight, b, sys.b, q, l, none);
        add_run(sys, a, b, q, l, q + 1, sys.b.rows - 1 - q, own)
    } else {
        let before = add_run(sys, a, b, q, l, 0, q, none);
        plus_lanes(weight, b, sys.b, q, l, before)
    }
}
