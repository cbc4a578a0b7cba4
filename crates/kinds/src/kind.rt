// What a number kind is: its operations, how its numbers lie in a slab, and its laws. A generic routine rests on these alone.

ghost use Rattle.std.specs.Mem.{type_size};
ghost use Rattle.std.specs.Prelude.{◌≡◌, ℕ, ◌*◌, ◌<◌, ◌^◌};
ghost use Rattle.number.specs.Kind.{Numbers, kind};
ghost use Rattle.number.specs.Laws.{NumberLaws, SelfConjugate};
ghost use Rattle.number.specs.Scaling.{Multipliers, beta_of, beta_real_of, scale_by};

use number::Beta;

pub trait Number: Copy {
    // A number of the slab, a real factor, and what an element is multiplied by: a number of the kind, or a real factor.
    type Cell: Copy;

    type Factor: Copy;

    type Multiplier: Copy;

    // How many sums side by side the processor's registers hold.
    const LANES: usize;

    ghost numbers: { Numbers Self.Cell Self Self.Factor };

    ghost multipliers: { Multipliers numbers Self.Multiplier };

    fn zero() -> Self
        ensures { result ≡ numbers.zero };

    fn one() -> Self
        ensures { result ≡ numbers.one };

    fn add(self, other: Self) -> Self
        ensures { result ≡ numbers.add self other };

    fn sub(self, other: Self) -> Self
        ensures { result ≡ numbers.sub self other };

    fn mul(self, other: Self) -> Self
        ensures { result ≡ numbers.mul self other };

    fn div(self, other: Self) -> Self
        ensures { result ≡ numbers.div self other };

    fn conj(self) -> Self
        ensures { result ≡ numbers.conj self };

    fn from_real(v: Self::Factor) -> Self
        ensures { result ≡ numbers.from_real v };

    // The product of the real factor `v` and this number.
    fn scale_real(self, v: Self::Factor) -> Self
        ensures { result ≡ numbers.scale_real v self };

    fn is_zero(self) -> bool
        ensures { result ≡ numbers.is_zero self };

    fn is_one(self) -> bool
        ensures { result ≡ numbers.is_one self };

    fn is_zero_factor(v: Self::Factor) -> bool
        ensures { result ≡ numbers.is_zero_factor v };

    fn is_one_factor(v: Self::Factor) -> bool
        ensures { result ≡ numbers.is_one_factor v };

    fn multiplier(self) -> Self::Multiplier
        ensures { result ≡ multipliers.number self };

    fn real_multiplier(v: Self::Factor) -> Self::Multiplier
        ensures { result ≡ multipliers.real v };

    fn times(self, m: Self::Multiplier) -> Self
        ensures { result ≡ multipliers.times m self };

    // How many elements a slab has: fewer than 2 ^ 63.
    fn count(s: &[Self::Cell]) -> usize
        ensures counted { result ≡ numbers.count s.now }
        ensures bounded { result < 2 ^ 63 };

    // Element k of a slab.
    fn get(s: &[Self::Cell], k: usize) -> Self
        requires { k < numbers.count s.now }
        ensures { result ≡ numbers.at s.now k };

    // Element k replaced.
    fn put(s: &mut [Self::Cell], k: usize, x: Self)
        requires { k < numbers.count s.old }
        ensures { s.new ≡ numbers.put s.old k x };

    // Beta judged.
    final fn judged(self) -> Beta<Self::Multiplier>
        ensures { result ≡ beta_of numbers multipliers self }
    {
        if self.is_zero() {
            Beta::Clear
        } else if self.is_one() {
            Beta::Keep
        } else {
            Beta::Factor(self.multiplier())
        }
    }

    // A real beta, judged on the real number.
    final fn judged_real(v: Self::Factor) -> Beta<Self::Multiplier>
        ensures { result ≡ beta_real_of numbers multipliers v }
    {
        if Self::is_zero_factor(v) {
            Beta::Clear
        } else if Self::is_one_factor(v) {
            Beta::Keep
        } else {
            Beta::Factor(Self::real_multiplier(v))
        }
    }

    final fn scaled(self, beta: Beta<Self::Multiplier>) -> Self
        ensures { result ≡ scale_by numbers multipliers beta self }
    {
        match beta {
            Beta::Clear => Self::zero(),
            Beta::Keep => self,
            Beta::Factor(m) => self.times(m),
        }
    }

    ghost laws: { NumberLaws numbers };

    // Fewer than 2 ^ 16 numbers side by side fit the memory.
    ghost fit: { (n : ℕ) → n < 2 ^ 16 → n * type_size Self.row < 2 ^ 63 };
}

// A kind whose numbers are their own conjugates.
pub trait Real: Number {
    ghost self_conjugate: { SelfConjugate (kind Self.numbers) };
}
