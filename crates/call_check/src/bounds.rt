// Refusals 1 and 2 for one view, in constant time.
ghost use Rattle.std.specs.Prelude.{◌≡◌, ◌+◌, ◌*◌, ◌<◌, leb};
ghost use Rattle.view.specs.Refusals.{too_large, out_of_bounds};
ghost use Rattle.view.specs.Steps.{up, down};

use view::View;

// The most rows, and the most columns, that a view may have.
pub const LIMIT: usize = 64;

#[tactic(auto, unfolding(view::specs::Refusals::too_large))]
#[inline(always)]
pub fn too_large(v: View) -> bool
    ensures { result ≡ too_large v }
{
    LIMIT < v.rows || LIMIT < v.cols
}

// The positive part of a stride.
fn up_part(z: i64) -> usize
    ensures { result ≡ up z }
{
    z.max(0) as usize
}

// The negative part of a stride, also of the least i64.
fn down_part(z: i64) -> usize
    ensures { result ≡ down z }
{
    z.min(0).unsigned_abs() as usize
}

// Whether a * x is at most room, for numbers of any size.
pub fn product_within(room: usize, a: usize, x: usize) -> bool
    ensures { result ≡ leb (a * x) room }
{
    a == 0 || x <= room / a
}

// Whether a * x + b * y is.
#[inline(never)]
fn within(room: usize, a: usize, x: usize, b: usize, y: usize) -> bool
    ensures { result ≡ leb (a * x + b * y) room }
{
    product_within(room, a, x) && product_within(room - a * x, b, y)
}

// Whether the last place is at the slab's end or past it, or the first below 0.
#[tactic(auto, using(crate::proofs::Extent::outside_is))]
#[inline(always)]
fn outside(v: View, len: usize) -> bool
    requires rows { 0 < v.rows }
    requires cols { 0 < v.cols }
    requires start { v.start < len }
    ensures { result ≡ out_of_bounds v len }
{
    let a = v.rows - 1;
    let b = v.cols - 1;
    !within(len - 1 - v.start, a, up_part(v.rs), b, up_part(v.cs))
        || !within(v.start, a, down_part(v.rs), b, down_part(v.cs))
}

#[tactic(auto, using(crate::proofs::Extent::plain_cases))]
#[inline(always)]
pub fn out_of_bounds(v: View, len: usize) -> bool
    ensures { result ≡ out_of_bounds v len }
{
    v.rows != 0 && v.cols != 0 && (len <= v.start || outside(v, len))
}
