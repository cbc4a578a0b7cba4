// Floats by their bit patterns. std's `from_bits` and `to_bits` take no NaN, whose patterns here count as one.
ghost use Rattle.std.specs.Prelude.{◌≡◌, ◌<◌, ◌^◌, Bool};
ghost use Rattle.std.specs.Float.{binary32, binary64};
ghost use Rattle.std.specs.Float.Ieee.{nan_bits, of_bits, to_bits};
ghost use Rattle.encoding.specs.Alike.{alike};

// A float type with its bit patterns. Each type's `from_bits` and `to_bits` are its own, so the two impls are alike.
pub trait Patterned: Copy {
    type Pattern: Copy;

    ghost number: { Self.Pattern → Self };

    ghost is_alike: { Self → Self.Pattern → Bool };

    // The number of a bit pattern.
    fn of_pattern(n: Self::Pattern) -> Self
        ensures { result ≡ number n };

    // Whether it has the bits n, NaNs being alike.
    fn alike(self, n: Self::Pattern) -> bool
        ensures { result ≡ is_alike self n };
}

impl Patterned for f64 {
    type Pattern = u64;

    ghost number = { of_bits binary64 };

    ghost is_alike = { alike binary64 };

    fn of_pattern(n: u64) -> f64 {
        if is_nan_f64(n) {
            f64::NAN
        } else {
            f64::from_bits(n)
        }
    }

    fn alike(self, n: u64) -> bool {
        if self.is_nan() {
            is_nan_f64(n)
        } else {
            self.to_bits() == n
        }
    }
}

impl Patterned for f32 {
    type Pattern = u32;

    ghost number = { of_bits binary32 };

    ghost is_alike = { alike binary32 };

    fn of_pattern(n: u32) -> f32 {
        if is_nan_f32(n) {
            f32::NAN
        } else {
            f32::from_bits(n)
        }
    }

    fn alike(self, n: u32) -> bool {
        if self.is_nan() {
            is_nan_f32(n)
        } else {
            self.to_bits() == n
        }
    }
}

fn is_nan_f64(n: u64) -> bool
    ensures { result ≡ nan_bits binary64 n }
{
    n % 0x8000_0000_0000_0000 > 0x7ff0_0000_0000_0000
}

fn is_nan_f32(n: u32) -> bool
    ensures { result ≡ nan_bits binary32 n }
{
    n % 0x8000_0000 > 0x7f80_0000
}

// The bit pattern of a number; of a NaN the quiet one.
pub fn bits_of(x: f64) -> u64
    ensures { result ≡ to_bits binary64 x }
{
    if x.is_nan() {
        0x7ff8_0000_0000_0000
    } else {
        x.to_bits()
    }
}
