// Where alpha weighs the products of a rank-2k update: what syr2k and her2k differ in.

ghost use Rattle.std.specs.Prelude.{◌≡◌};
ghost use Rattle.number.specs.Kind.{kind};
ghost use Rattle.rank_plan.specs.Change.{Weights, sum_weighed, factors_weighed};

use kinds::Number;

pub(crate) trait Weigh<N: Number>: Copy {
    ghost weights: { Self → Weights N };

    // A left factor of A's.
    fn left_a(self, x: N) -> N
        ensures { result ≡ (weights self).left_a x };

    // A left factor of B's.
    fn left_b(self, x: N) -> N
        ensures { result ≡ (weights self).left_b x };

    // The sum of the products.
    fn sum(self, x: N) -> N
        ensures { result ≡ (weights self).sum x };
}

// Alpha times the sum.
#[derive(Clone, Copy)]
pub(crate) struct SumWeighed<N> {
    pub alpha: N,
}

impl<N: Number> Weigh<N> for SumWeighed<N> {
    ghost weights = { λ w. sum_weighed (kind N.numbers) w.alpha };

    fn left_a(self, x: N) -> N {
        x
    }

    fn left_b(self, x: N) -> N {
        x
    }

    fn sum(self, x: N) -> N {
        self.alpha.mul(x)
    }
}

// Alpha times A's left factors, and its conjugate times B's.
#[derive(Clone, Copy)]
pub(crate) struct FactorsWeighed<N> {
    pub alpha: N,
}

impl<N: Number> Weigh<N> for FactorsWeighed<N> {
    ghost weights = { λ w. factors_weighed (kind N.numbers) w.alpha };

    fn left_a(self, x: N) -> N {
        self.alpha.mul(x)
    }

    fn left_b(self, x: N) -> N {
        self.alpha.conj().mul(x)
    }

    fn sum(self, x: N) -> N {
        x
    }
}
