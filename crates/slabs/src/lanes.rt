// W sums side by side, each with a term more or less: the compiler then takes several at once.

ghost use Rattle.std.specs.Prelude.{ℕ, ◌≡◌, ◌<◌, ◌+◌};
ghost use Rattle.number.specs.Kind.{kind};
ghost use Rattle.slabs.specs.Eight.{lane, Lanes};
ghost use Rattle.slabs.specs.Elem.{elem, Within};
ghost use Rattle.slabs.specs.Run.{elem_conj};

use crate::access::{elem, elem_conj};
use kinds::Number;
use view::View;

// Sums of no term.
pub fn zeros<N: Number, const W: usize>() -> [N; W]
    ensures { Lanes (kind N.numbers) W result (λ t. N.numbers.zero) }
{
    [N::zero(); W]
}

// Plus x times the elements of row p of a view from column j on.
pub fn plus_lanes<N: Number, const W: usize>(
    x: N,
    s: &[N::Cell],
    v: View,
    p: usize,
    j: usize,
    sums: [N; W],
) -> [N; W]
    requires { (t : ℕ) → t < W → Within v (N.numbers.count s.now) p (j + t) }
    ensures { Lanes (kind N.numbers) W result (λ t. N.numbers.add (lane (kind N.numbers) sums t) (N.numbers.mul x (elem (kind N.numbers) s.now v p (j + t)))) }
{
    let mut next = sums;
    for t in 0..W {
        next[t] = next[t].add(x.mul(elem(s, v, p, j + t)));
    }
    next
}

// The same with the elements conjugated or not.
#[inline(always)]
pub fn plus_conj_lanes<N: Number, const W: usize>(
    x: N,
    conj: bool,
    s: &[N::Cell],
    v: View,
    p: usize,
    j: usize,
    sums: [N; W],
) -> [N; W]
    requires { (t : ℕ) → t < W → Within v (N.numbers.count s.now) p (j + t) }
    ensures { Lanes (kind N.numbers) W result (λ t. N.numbers.add (lane (kind N.numbers) sums t) (N.numbers.mul x (elem_conj (kind N.numbers) conj s.now v p (j + t)))) }
{
    let mut next = sums;
    for t in 0..W {
        next[t] = next[t].add(x.mul(elem_conj(conj, s, v, p, j + t)));
    }
    next
}

// Plus x times the numbers of a slab from number k on.
pub fn plus_beside<N: Number, const W: usize>(x: N, s: &[N::Cell], k: usize, sums: [N; W]) -> [N; W]
    requires { (t : ℕ) → t < W → k + t < N.numbers.count s.now }
    ensures { Lanes (kind N.numbers) W result (λ t. N.numbers.add (lane (kind N.numbers) sums t) (N.numbers.mul x (N.numbers.at s.now (k + t)))) }
{
    let _count = N::count(s);
    let mut next = sums;
    for t in 0..W {
        next[t] = next[t].add(x.mul(N::get(s, k + t)));
    }
    next
}

// Less x times the elements of row p of a view from column j on.
pub fn minus_lanes<N: Number, const W: usize>(
    x: N,
    s: &[N::Cell],
    v: View,
    p: usize,
    j: usize,
    sums: [N; W],
) -> [N; W]
    requires { (t : ℕ) → t < W → Within v (N.numbers.count s.now) p (j + t) }
    ensures { Lanes (kind N.numbers) W result (λ t. N.numbers.sub (lane (kind N.numbers) sums t) (N.numbers.mul x (elem (kind N.numbers) s.now v p (j + t)))) }
{
    let mut next = sums;
    for t in 0..W {
        next[t] = next[t].sub(x.mul(elem(s, v, p, j + t)));
    }
    next
}
