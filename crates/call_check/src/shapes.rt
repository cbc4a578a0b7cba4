// Refusal 3: the shape rules of the routines.
ghost use Rattle.std.specs.Prelude.{◌≡◌};
ghost use Rattle.view.specs.Checks as specs;

use view::{Side, Trans, View};

// The order of a square matrix that multiplies b on a side.
fn order_of(side: Side, b: View) -> usize
    ensures { result ≡ specs.order_of side b }
{
    match side {
        Side::Left => b.rows,
        Side::Right => b.cols,
    }
}

// Whether v has m rows and n columns.
fn shaped(v: View, m: usize, n: usize) -> bool
    ensures { result ≡ specs.shaped v m n }
{
    v.rows == m && v.cols == n
}

// Whether v is a vector of length n.
#[tactic(auto, unfolding(view::specs::Checks::vector_of, view::specs::Refusals::is_vector))]
fn vector_of(v: View, n: usize) -> bool
    ensures { result ≡ specs.vector_of v n }
{
    (v.rows <= 1 || v.cols <= 1) && v.rows * v.cols == n
}

#[tactic(auto, unfolding(view::specs::Checks::gemv_shape))]
pub fn gemv(t: Trans, a: View, x: View, y: View) -> bool
    ensures { result ≡ specs.gemv_shape t a x y }
{
    vector_of(x, a.op_cols(t)) && vector_of(y, a.op_rows(t))
}

#[tactic(auto, unfolding(view::specs::Checks::trmv_shape))]
pub fn trmv(a: View, x: View) -> bool
    ensures { result ≡ specs.trmv_shape a x }
{
    shaped(a, a.rows, a.rows) && vector_of(x, a.rows)
}

#[tactic(auto, unfolding(view::specs::Checks::hemv_shape))]
pub fn hemv(a: View, x: View, y: View) -> bool
    ensures { result ≡ specs.hemv_shape a x y }
{
    trmv(a, x) && vector_of(y, a.rows)
}

#[tactic(auto, unfolding(view::specs::Checks::gemm_shape))]
pub fn gemm(ta: Trans, tb: Trans, a: View, b: View, c: View) -> bool
    ensures { result ≡ specs.gemm_shape ta tb a b c }
{
    a.op_cols(ta) == b.op_rows(tb) && shaped(c, a.op_rows(ta), b.op_cols(tb))
}

#[tactic(auto, unfolding(view::specs::Checks::trmm_shape))]
pub fn trmm(side: Side, a: View, b: View) -> bool
    ensures { result ≡ specs.trmm_shape side a b }
{
    let n = order_of(side, b);
    shaped(a, n, n)
}

#[tactic(auto, unfolding(view::specs::Checks::symm_shape))]
pub fn symm(side: Side, a: View, b: View, c: View) -> bool
    ensures { result ≡ specs.symm_shape side a b c }
{
    trmm(side, a, c) && shaped(b, c.rows, c.cols)
}

#[tactic(auto, unfolding(view::specs::Checks::syrk_shape))]
pub fn syrk(t: Trans, a: View, c: View) -> bool
    ensures { result ≡ specs.syrk_shape t a c }
{
    let n = a.op_rows(t);
    shaped(c, n, n)
}

#[tactic(auto, unfolding(view::specs::Checks::syr2k_shape))]
pub fn syr2k(t: Trans, a: View, b: View, c: View) -> bool
    ensures { result ≡ specs.syr2k_shape t a b c }
{
    shaped(b, a.rows, a.cols) && syrk(t, a, c)
}
