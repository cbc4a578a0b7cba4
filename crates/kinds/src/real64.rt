// f64: IEEE 754's binary64.

ghost use Rattle.std.proofs.Common.{rules};
ghost use Rattle.std.specs.Float.{binary64};
ghost use Rattle.number.specs.Kind.{real_numbers};
ghost use Rattle.number.specs.Scaling.{real_multipliers};
ghost use Rattle.number.proofs.Instances.{real64_number-laws};
ghost use Rattle.number.proofs.Commutes.{real-self-conjugate};

use crate::kind::{Number, Real};

impl Number for f64 {
    type Cell = f64;

    type Factor = f64;

    type Multiplier = f64;

    const LANES: usize = 8;

    ghost numbers = { real_numbers binary64 };

    ghost multipliers = { real_multipliers binary64 };

    ghost laws = { real64_number-laws };

    ghost fit = { λ n h. Prim.search rules };

    #[tactic(auto, using(number::proofs::Literals::zero_literal))]
    fn zero() -> f64 {
        0.0
    }

    #[tactic(auto, using(number::proofs::Literals::one_literal64))]
    fn one() -> f64 {
        1.0
    }

    fn add(self, other: f64) -> f64 {
        self + other
    }

    fn sub(self, other: f64) -> f64 {
        self - other
    }

    fn mul(self, other: f64) -> f64 {
        self * other
    }

    fn div(self, other: f64) -> f64 {
        self / other
    }

    // The conjugate of a real number is itself.
    fn conj(self) -> f64 {
        self
    }

    fn from_real(v: f64) -> f64 {
        v
    }

    fn scale_real(self, v: f64) -> f64 {
        v * self
    }

    #[tactic(auto, using(number::proofs::Literals::zero_literal))]
    fn is_zero(self) -> bool {
        self == 0.0
    }

    #[tactic(auto, using(number::proofs::Literals::one_literal64))]
    fn is_one(self) -> bool {
        self == 1.0
    }

    fn is_zero_factor(v: f64) -> bool {
        v.is_zero()
    }

    fn is_one_factor(v: f64) -> bool {
        v.is_one()
    }

    fn multiplier(self) -> f64 {
        self
    }

    fn real_multiplier(v: f64) -> f64 {
        v
    }

    fn times(self, m: f64) -> f64 {
        m * self
    }

    fn count(s: &[f64]) -> usize {
        s.len()
    }

    fn get(s: &[f64], k: usize) -> f64 {
        s[k]
    }

    fn put(s: &mut [f64], k: usize, x: f64) {
        s[k] = x;
    }
}

impl Real for f64 {
    ghost self_conjugate = { real-self-conjugate binary64 };
}
