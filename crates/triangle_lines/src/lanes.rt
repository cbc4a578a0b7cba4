// Numbers of a row side by side.

ghost use Rattle.std.specs.Prelude.{ℕ, ◌≡◌, ◌≤◌, ◌<◌, ◌+◌, ◌-◌};
ghost use Rattle.number.specs.Kind.{kind};
ghost use Rattle.slabs.specs.Eight.{lane, Lanes};
ghost use Rattle.slabs.specs.Elem.{elem, Within};
ghost use Rattle.triangle_plan.specs.Lanes.{put_lanes};
ghost use Rattle.triangle_plan.specs.Triangles.{times_if};

use kinds::Number;
use slabs::{elem, place, zeros};
use view::View;

// Whether lines gain by being worked out W at a time, with that many elements in each: four of them only if not with five lines, of
// which three would be worked out twice, nor with few elements. What a call gives is the same.
pub(crate) fn gain(w: usize, lines: usize, elements: usize) -> bool {
    8 <= w || (lines != 5 && 4 <= elements)
}

// The elements of row q of a view from column l on.
pub(crate) fn lanes_at<N: Number, const W: usize>(
    s: &[N::Cell],
    v: View,
    q: usize,
    l: usize,
) -> [N; W]
    requires { (t : ℕ) → t < W → Within v (N.numbers.count s.now) q (l + t) }
    ensures { Lanes (kind N.numbers) W result (λ t. elem (kind N.numbers) s.now v q (l + t)) }
{
    let mut next = zeros();
    for t in 0..W {
        next[t] = elem(s, v, q, l + t);
    }
    next
}

// Each number times alpha, or as it is.
pub(crate) fn times_lanes<N: Number, const W: usize>(alpha: Option<N>, xs: [N; W]) -> [N; W]
    ensures { Lanes (kind N.numbers) W result (λ t. times_if (kind N.numbers) alpha (lane (kind N.numbers) xs t)) }
{
    match alpha {
        None => xs,
        Some(factor) => {
            let mut next = xs;
            for t in 0..W {
                next[t] = factor.mul(next[t]);
            }
            next
        }
    }
}

// Each number divided by d.
pub(crate) fn over_lanes<N: Number, const W: usize>(xs: [N; W], d: N) -> [N; W]
    ensures { Lanes (kind N.numbers) W result (λ t. N.numbers.div (lane (kind N.numbers) xs t) d) }
{
    let mut next = xs;
    for t in 0..W {
        next[t] = next[t].div(d);
    }
    next
}

// Those from number `first` to before number `end`, put into row q of a view: number t into column l + t.
pub(crate) fn put_lanes<N: Number, const W: usize>(
    b: &mut [N::Cell],
    v: View,
    q: usize,
    l: usize,
    first: usize,
    end: usize,
    xs: [N; W],
)
    requires inside { (t : ℕ) → t < W → Within v (N.numbers.count b.old) q (l + t) }
    requires order { (first ≤ end) × (end ≤ W) }
    ensures { b.new ≡ put_lanes (kind N.numbers) v q l first xs (end - first) b.old }
{
    for t in first..end {
        let at = place::<N>(b, v, q, l + t);
        N::put(b, at, xs[t]);
    }
}
