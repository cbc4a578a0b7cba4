// f32: IEEE 754's binary32.

ghost use Rattle.std.proofs.Common.{rules};
ghost use Rattle.std.specs.Float.{binary32};
ghost use Rattle.number.specs.Kind.{real_numbers};
ghost use Rattle.number.specs.Scaling.{real_multipliers};
ghost use Rattle.number.proofs.Instances.{real32_number-laws};
ghost use Rattle.number.proofs.Commutes.{real-self-conjugate};

use crate::kind::{Number, Real};

impl Number for f32 {
    type Cell = f32;

    type Factor = f32;

    type Multiplier = f32;

    const LANES: usize = 8;

    ghost numbers = { real_numbers binary32 };

    ghost multipliers = { real_multipliers binary32 };

    ghost laws = { real32_number-laws };

    ghost fit = { λ n h. Prim.search rules };

    #[tactic(auto, using(number::proofs::Literals::zero_literal))]
    fn zero() -> f32 {
        0.0
    }

    #[tactic(auto, using(number::proofs::Literals::one_literal32))]
    fn one() -> f32 {
        1.0
    }

    fn add(self, other: f32) -> f32 {
        self + other
    }

    fn sub(self, other: f32) -> f32 {
        self - other
    }

    fn mul(self, other: f32) -> f32 {
        self * other
    }

    fn div(self, other: f32) -> f32 {
        self / other
    }

    // The conjugate of a real number is itself.
    fn conj(self) -> f32 {
        self
    }

    fn from_real(v: f32) -> f32 {
        v
    }

    fn scale_real(self, v: f32) -> f32 {
        v * self
    }

    #[tactic(auto, using(number::proofs::Literals::zero_literal))]
    fn is_zero(self) -> bool {
        self == 0.0
    }

    #[tactic(auto, using(number::proofs::Literals::one_literal32))]
    fn is_one(self) -> bool {
        self == 1.0
    }

    fn is_zero_factor(v: f32) -> bool {
        v.is_zero()
    }

    fn is_one_factor(v: f32) -> bool {
        v.is_one()
    }

    fn multiplier(self) -> f32 {
        self
    }

    fn real_multiplier(v: f32) -> f32 {
        v
    }

    fn times(self, m: f32) -> f32 {
        m * self
    }

    fn count(s: &[f32]) -> usize {
        s.len()
    }

    fn get(s: &[f32], k: usize) -> f32 {
        s[k]
    }

    fn put(s: &mut [f32], k: usize, x: f32) {
        s[k] = x;
    }
}

impl Real for f32 {
    ghost self_conjugate = { real-self-conjugate binary32 };
}
