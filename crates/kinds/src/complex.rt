// Complex numbers over f64. An element takes two numbers of the slab.

ghost use Rattle.std.proofs.Common.{rules};
ghost use Rattle.number.specs.Kind.{complex_numbers};
ghost use Rattle.number.specs.Scaling.{complex_multipliers};
ghost use Rattle.number.proofs.Instances.{complex_number-laws};

use crate::kind::Number;
use number::{Complex, Multiplier};

impl Number for Complex {
    type Cell = f64;

    type Factor = f64;

    type Multiplier = Multiplier;

    const LANES: usize = 4;

    ghost numbers = { complex_numbers };

    ghost multipliers = { complex_multipliers };

    ghost laws = { complex_number-laws };

    ghost fit = { λ n h. Prim.search rules };

    #[tactic(auto, using(number::proofs::Literals::zero_literal))]
    fn zero() -> Complex {
        Complex { re: 0.0, im: 0.0 }
    }

    #[tactic(auto, using(number::proofs::Literals::zero_literal, number::proofs::Literals::one_literal64))]
    fn one() -> Complex {
        Complex { re: 1.0, im: 0.0 }
    }

    fn add(self, other: Complex) -> Complex {
        Complex {
            re: self.re + other.re,
            im: self.im + other.im,
        }
    }

    fn sub(self, other: Complex) -> Complex {
        Complex {
            re: self.re - other.re,
            im: self.im - other.im,
        }
    }

    fn mul(self, other: Complex) -> Complex {
        Complex {
            re: self.re * other.re - self.im * other.im,
            im: self.re * other.im + self.im * other.re,
        }
    }

    fn div(self, other: Complex) -> Complex {
        let s = other.re * other.re + other.im * other.im;
        Complex {
            re: (self.re * other.re + self.im * other.im) / s,
            im: (self.im * other.re - self.re * other.im) / s,
        }
    }

    fn conj(self) -> Complex {
        Complex {
            re: self.re,
            im: -self.im,
        }
    }

    #[tactic(auto, using(number::proofs::Literals::zero_literal))]
    fn from_real(v: f64) -> Complex {
        Complex { re: v, im: 0.0 }
    }

    fn scale_real(self, v: f64) -> Complex {
        Complex::from_real(v).mul(self)
    }

    fn is_zero(self) -> bool {
        self.re.is_zero() && self.im.is_zero()
    }

    fn is_one(self) -> bool {
        self.re.is_one() && self.im.is_zero()
    }

    fn is_zero_factor(v: f64) -> bool {
        v.is_zero()
    }

    fn is_one_factor(v: f64) -> bool {
        v.is_one()
    }

    fn multiplier(self) -> Multiplier {
        Multiplier::Number(self)
    }

    fn real_multiplier(v: f64) -> Multiplier {
        Multiplier::Real(v)
    }

    fn times(self, m: Multiplier) -> Complex {
        match m {
            Multiplier::Number(b) => b.mul(self),
            Multiplier::Real(v) => self.scale_real(v),
        }
    }

    fn count(s: &[f64]) -> usize {
        s.len() / 2
    }

    fn get(s: &[f64], k: usize) -> Complex {
        Complex {
            re: s[2 * k],
            im: s[2 * k + 1],
        }
    }

    fn put(s: &mut [f64], k: usize, x: Complex) {
        s[2 * k] = x.re;
        s[2 * k + 1] = x.im;
    }
}
