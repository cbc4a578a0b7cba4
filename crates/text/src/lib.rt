// Numbers and judgements as text. A number is written as what it is, then its bits in brackets, in hexadecimal.

#![tactic(auto)]

ghost use Rattle.std.specs.Prelude.{◌≡◌, codes, if◌then◌else◌};

use number::{Beta, Complex, Multiplier};
use std::fmt;
use std::num::{nearest_u64_to_f64, saturating_f64_to_i64, saturating_f64_to_u64};

pub fn yes_or_no(yes: bool) -> &'static str
    ensures { result.now ≡ (if yes then codes "yes" else codes "no") }
{
    if yes { "yes" } else { "no" }
}

// A number, or a beta that was judged, shown with its bits.
#[derive(Clone, Copy)]
pub struct Shown<T>(pub T);

// std has no trait over f64 and f32 with these methods, so each has its own lines.
impl fmt::Display for Shown<f64> {
    fn fmt<W: fmt::Write>(&self, f: &mut fmt::Formatter<W>) -> fmt::Result {
        let x = self.0;
        if x.is_nan() {
            return write!(f, "NaN");
        }
        let word = Word {
            negative: x.is_sign_negative(),
            size: x.abs(),
            subnormal: x.is_subnormal(),
        };
        write!(f, "{word} [{:016x}]", x.to_bits())
    }
}

impl fmt::Display for Shown<f32> {
    fn fmt<W: fmt::Write>(&self, f: &mut fmt::Formatter<W>) -> fmt::Result {
        let x = self.0;
        if x.is_nan() {
            return write!(f, "NaN");
        }
        let word = Word {
            negative: x.is_sign_negative(),
            size: f64::from(x.abs()),
            subnormal: x.is_subnormal(),
        };
        write!(f, "{word} [{:08x}]", x.to_bits())
    }
}

impl fmt::Display for Shown<Complex> {
    fn fmt<W: fmt::Write>(&self, f: &mut fmt::Formatter<W>) -> fmt::Result {
        write!(f, "({}, {})", Shown(self.0.re), Shown(self.0.im))
    }
}

impl fmt::Display for Shown<Multiplier> {
    fn fmt<W: fmt::Write>(&self, f: &mut fmt::Formatter<W>) -> fmt::Result {
        match self.0 {
            Multiplier::Number(b) => write!(f, "{}", Shown(b)),
            Multiplier::Real(v) => write!(f, "{}", Shown(v)),
        }
    }
}

impl<M: Copy> fmt::Display for Shown<Beta<M>>
where
    Shown<M>: fmt::Display,
{
    fn fmt<W: fmt::Write>(&self, f: &mut fmt::Formatter<W>) -> fmt::Result {
        match self.0 {
            Beta::Clear => write!(f, "Clear"),
            Beta::Keep => write!(f, "Keep"),
            Beta::Factor(m) => write!(f, "Factor {}", Shown(m)),
        }
    }
}

// What a number that is no NaN is, by its sign, its size, and whether this is below the normal ones of its width.
#[derive(Clone, Copy)]
struct Word {
    negative: bool,
    size: f64,
    subnormal: bool,
}

impl fmt::Display for Word {
    fn fmt<W: fmt::Write>(&self, f: &mut fmt::Formatter<W>) -> fmt::Result {
        if self.negative {
            write!(f, "-")?;
        }
        match whole(self.size) {
            Some(n) => write!(f, "{n}"),
            None if self.subnormal => write!(f, "subnormal"),
            None if self.size.is_infinite() => write!(f, "inf"),
            None => write!(f, "fraction"),
        }
    }
}

// x as a whole number below 2^64, where it is one.
fn whole(x: f64) -> Option<u64> {
    let n = saturating_f64_to_u64(x);
    (x < 18446744073709551616.0 && nearest_u64_to_f64(n) == x).then_some(n)
}

// A whole number of at most three digits, in a column seven wide.
#[derive(Clone, Copy)]
pub struct Column(pub f64);

impl fmt::Display for Column {
    fn fmt<W: fmt::Write>(&self, f: &mut fmt::Formatter<W>) -> fmt::Result {
        write!(f, "{:>7}", saturating_f64_to_i64(self.0))
    }
}
