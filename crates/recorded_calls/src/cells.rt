// The cells of a record: numbers by their bits. Its slabs, its scalars, and what a call has to leave of them.
ghost use Rattle.std.specs.Prelude.{◌≡◌, ◌*◌, ◌<◌, ◌^◌, ℕ, List};
ghost use Rattle.std.specs.Mem.{type_size};
ghost use Rattle.std.proofs.Common.{rules};
ghost use Rattle.recorded_calls.specs.Little.{double, word};

use crate::record;
use crate::record::{Record, SLAB};
use encoding::bits::Patterned;
use encoding::little::{double_at, word_at};
use number::Complex;
use view::Answer;

pub trait Cell: Patterned + Default {
    // The bits of cell i of the cells that begin at a place of a list of bytes.
    ghost bits: { List ℕ → ℕ → ℕ → Self.Pattern };

    // Those, of fewer than 4096 cells.
    fn bits_at(bytes: &[u8], at: usize, i: usize) -> Self::Pattern
        ensures { i < 4096 → result ≡ bits bytes.now at i };

    // A slab of them fits the memory.
    ghost fit: { 144 * type_size Self.row < 2 ^ 63 };
}

impl Cell for f64 {
    ghost bits = { λ s at i. double s at (8 * i) };

    ghost fit = { Prim.search rules };

    fn bits_at(bytes: &[u8], at: usize, i: usize) -> u64 {
        if i < 4096 {
            double_at(bytes, at, 8 * i)
        } else {
            0
        }
    }
}

impl Cell for f32 {
    ghost bits = { λ s at i. word s at (4 * i) };

    ghost fit = { Prim.search rules };

    fn bits_at(bytes: &[u8], at: usize, i: usize) -> u32 {
        if i < 4096 {
            word_at(bytes, at, 4 * i) as u32
        } else {
            0
        }
    }
}

// A number by the two parts that a record has of it. A real number is the first.
pub trait OfParts<T> {
    ghost of_parts: { T → T → Self };

    fn of_parts(re: T, im: T) -> Self
        ensures { result ≡ of_parts re im };
}

impl OfParts<f64> for f64 {
    ghost of_parts = { λ re im. re };

    fn of_parts(re: f64, _im: f64) -> f64 {
        re
    }
}

impl OfParts<f32> for f32 {
    ghost of_parts = { λ re im. re };

    fn of_parts(re: f32, _im: f32) -> f32 {
        re
    }
}

impl OfParts<f64> for Complex {
    ghost of_parts = { λ re im. record { re = re; im = im } };

    fn of_parts(re: f64, im: f64) -> Complex {
        Complex { re, im }
    }
}

// The cells that begin at `at`, to the slab.
pub fn fill<T: Cell>(bytes: &[u8], at: usize, s: &mut [T]) {
    for (i, x) in s.iter_mut().enumerate() {
        *x = T::of_pattern(T::bits_at(bytes, at, i));
    }
}

// Whether every cell of s is alike to the cells that begin at `at`.
pub fn same<T: Cell>(bytes: &[u8], at: usize, s: &[T]) -> bool {
    s.iter()
        .enumerate()
        .all(|(i, x)| x.alike(T::bits_at(bytes, at, i)))
}

impl Record<'_> {
    // Slab k before the call, in the first places of `space`.
    pub fn slab<'a, T: Cell>(self, k: usize, space: &'a mut [T]) -> &'a mut [T] {
        fill(self.bytes, self.slab_place(k), space);
        let n = self.length(k).min(space.len());
        &mut space[..n]
    }

    // Whether slab k is as it was before the call.
    pub fn kept<T: Cell>(self, k: usize, s: &[T]) -> bool {
        same(self.bytes, self.slab_place(k), s)
    }

    // Part k of the scalars: alpha's two parts, then beta's.
    pub fn scalar<T: Cell>(self, k: usize) -> T {
        T::of_pattern(T::bits_at(self.bytes, record::scalar_place(k), 0))
    }

    pub fn alpha<T: Cell, N: OfParts<T>>(self) -> N {
        N::of_parts(self.scalar(0), self.scalar(1))
    }

    pub fn beta<T: Cell, N: OfParts<T>>(self) -> N {
        N::of_parts(self.scalar(2), self.scalar(3))
    }

    // Whether a call, lent the first two slabs and the target's, gives the record's answer and the target's slab after the
    // call, and leaves the others. It gives none where the list has no such routine.
    pub fn agrees<T: Cell, F: FnOnce(&[T], &[T], &mut [T]) -> Option<Answer>>(
        self,
        target: usize,
        call: F,
    ) -> bool
        requires { F.IsAlwaysCallable call }
    {
        let mut s = [T::default(); SLAB];
        let mut t = [T::default(); SLAB];
        let mut u = [T::default(); SLAB];
        let a = self.slab(0, &mut s);
        let b = self.slab(1, &mut t);
        let c = self.slab(target, &mut u);
        let answer = call(a, b, c);
        self.has_answer(answer)
            && self.kept(0, a)
            && same(self.bytes, self.after(), c)
            && self.kept(1, b)
    }
}
