// Refusal 4: whether two elements of a view share a place. A count and the size of its stride are two arguments, as
// `meets` of view takes them.
ghost use Rattle.std.specs.Prelude.{◌≡◌, ◌<◌, ◌≤◌, ◌^◌};
ghost use Rattle.view.specs.Refusals.{overlaps};
ghost use Rattle.view.specs.Steps.{meets};

use crate::bounds::product_within;
use view::View;

// Goes through the multiples k * x, each as quot * y + rem: it meets a multiple d * y, d < cols, where rem is 0.
fn multiples_meet(rows: usize, x: usize, cols: usize, y: usize) -> bool
    requires moves { 0 < y }
    requires bound { y ≤ 2 ^ 63 }
    ensures { result ≡ meets rows x cols y }
{
    let q = x / y;
    let m = x % y;
    let mut quot = q;
    let mut rem = m;
    for _ in 1..rows {
        if cols <= quot {
            return false;
        }
        if rem == 0 {
            return true;
        }
        if cols - quot <= q {
            return false;
        }
        if y - m <= rem {
            quot += q + 1;
            rem -= y - m;
        } else {
            quot += q;
            rem += m;
        }
    }
    false
}

// Of one line of n elements: whether two of them share a place.
fn line_meets(n: usize, stride: usize) -> bool
    ensures { result ≡ meets 1 0 n stride }
{
    stride == 0 && 1 < n
}

// Whether k * x = d * y for some k < rows and d < cols that are not both 0.
#[tactic(auto, using(crate::proofs::Multiples::cases))]
#[inline(never)]
fn steps_meet(rows: usize, x: usize, cols: usize, y: usize) -> bool
    requires rows_bound { x ≤ 2 ^ 63 }
    requires cols_bound { y ≤ 2 ^ 63 }
    ensures { result ≡ meets rows x cols y }
{
    if rows == 0 || cols == 0 {
        false
    } else if rows == 1 {
        line_meets(cols, y)
    } else if cols == 1 {
        line_meets(rows, x)
    } else if x == 0 || y == 0 {
        true
    } else {
        !product_within(x - 1, cols - 1, y)
            && !product_within(y - 1, rows - 1, x)
            && multiples_meet(rows, x, cols, y)
    }
}

#[tactic(auto, using(crate::proofs::Multiples::overlap_law))]
#[inline(always)]
pub fn overlap(v: View) -> bool
    ensures { result ≡ overlaps v }
{
    let down = v.rs.unsigned_abs() as usize;
    let along = v.cs.unsigned_abs() as usize;
    steps_meet(v.rows, down, v.cols, along)
}
