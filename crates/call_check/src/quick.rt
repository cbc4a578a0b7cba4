// Quick tests that pass calls as most are: views of at least one element, with small starts and with strides that are
// small and not negative. What each answers is a definition (specs/Quick). A call that one passes is not refused; one
// that they do not pass is judged in full.
ghost use Rattle.std.specs.Prelude.{◌≡◌, true, ◌≤◌, ◌^◌, negsuc, MatchOption};
ghost use Rattle.call_check.specs.Quick as specs;

use crate::bounds::LIMIT;
use crate::shapes;
use view::{Side, Trans, View};

// Whether n is at least 1 and within the limit.
#[tactic(auto, unfolding(crate::specs::Quick::few))]
fn few(n: usize) -> bool
    ensures { result ≡ specs.few n }
{
    0 < n && n <= LIMIT
}

// Whether a view has a few rows and columns.
#[tactic(auto, unfolding(crate::specs::Quick::small))]
fn small(v: View) -> bool
    ensures { result ≡ specs.small v }
{
    few(v.rows) && few(v.cols)
}

// Whether a stride is not negative and below 2 ^ 30.
#[tactic(auto, unfolding(crate::specs::Quick::short))]
fn short(z: i64) -> bool
    ensures { result ≡ specs.short z }
{
    0 <= z && z < 0x4000_0000
}

// Whether a start is below 2 ^ 30.
fn near(start: usize) -> bool
    ensures { result ≡ specs.near start }
{
    start < 0x4000_0000
}

// From the first of n elements to the last.
#[tactic(auto, using(crate::proofs::Runs::strides))]
fn reach(n: usize, z: i64) -> usize
    requires { specs.Run n z }
    ensures value { result ≡ specs.reach n z }
    ensures bound { result ≤ 2 ^ 36 }
{
    (n - 1) * z as usize
}

// Whether a matrix is in bounds.
#[tactic(auto, using(crate::proofs::Sizes::sizes), unfolding(crate::specs::Quick::plain))]
fn plain(v: View, len: usize) -> bool
    requires { specs.small v ≡ true }
    ensures { result ≡ specs.plain v len }
{
    near(v.start)
        && short(v.rs)
        && short(v.cs)
        && v.start + (reach(v.rows, v.rs) + reach(v.cols, v.cs)) < len
}

// Whether each row is past the one before it, or each column, neither standing still.
#[tactic(auto, using(crate::proofs::Runs::strides), unfolding(crate::specs::Quick::apart))]
fn apart(v: View) -> bool
    requires rows { specs.Run v.rows v.rs }
    requires cols { specs.Run v.cols v.cs }
    ensures { result ≡ specs.apart v.rows v.cols v.rs v.cs }
{
    reach(v.cols, v.cs) < v.rs as usize && v.cs != 0
        || reach(v.rows, v.rs) < v.cs as usize && v.rs != 0
}

// Whether a matrix that is written is in bounds, each element on a place of its own.
#[tactic(auto, unfolding(crate::specs::Quick::written, crate::specs::Quick::plain, crate::specs::Quick::small))]
fn written(v: View, len: usize) -> bool
    requires { specs.small v ≡ true }
    ensures { result ≡ specs.written v len }
{
    plain(v, len) && apart(v)
}

// The stride along a vector of length n, down a column or along a row.
#[tactic(auto, unfolding(crate::specs::Quick::stride_of))]
fn stride_of(v: View, n: usize) -> Option<i64>
    ensures { MatchOption result (specs.stride_of v n ≡ negsuc 0) (λ z. specs.stride_of v n ≡ z) }
{
    if v.cols == 1 && v.rows == n {
        Some(v.rs)
    } else if v.rows == 1 && v.cols == n {
        Some(v.cs)
    } else {
        None
    }
}

// Whether a vector of length n is in bounds.
#[tactic(auto, unfolding(crate::specs::Quick::plain_vector, crate::specs::Quick::reaches, crate::specs::Quick::short))]
fn vector(v: View, n: usize, len: usize) -> bool
    requires { specs.few n ≡ true }
    ensures { result ≡ specs.plain_vector v n len }
{
    match stride_of(v, n) {
        Some(z) => near(v.start) && short(z) && v.start + reach(n, z) < len,
        None => false,
    }
}

// The same of a vector that is written, each element on a place of its own.
#[tactic(auto, using(crate::proofs::Runs::leading), unfolding(crate::specs::Quick::written_vector, crate::specs::Quick::short))]
fn vector_target(v: View, n: usize, len: usize) -> bool
    requires { specs.few n ≡ true }
    ensures { result ≡ specs.written_vector v n len }
{
    match stride_of(v, n) {
        Some(z) => z != 0 && vector(v, n, len),
        None => false,
    }
}

// Whether a matrix is square.
#[tactic(auto, unfolding(crate::specs::Quick::square))]
fn square(a: View) -> bool
    ensures { result ≡ specs.square a }
{
    few(a.rows) && a.cols == a.rows
}

// gemv, of the view of op(A).
#[tactic(auto, using(crate::proofs::Sizes::sizes), unfolding(crate::specs::Quick::quick_gemv))]
pub fn quick_gemv(a: View, la: usize, x: View, lx: usize, y: View, ly: usize) -> bool
    ensures { result ≡ specs.quick_gemv a la x lx y ly }
{
    small(a) && plain(a, la) && vector(x, a.cols, lx) && vector_target(y, a.rows, ly)
}

#[tactic(auto, using(crate::proofs::Sizes::sizes), unfolding(crate::specs::Quick::quick_hemv))]
pub fn quick_hemv(a: View, la: usize, x: View, lx: usize, y: View, ly: usize) -> bool
    ensures { result ≡ specs.quick_hemv a la x lx y ly }
{
    square(a) && plain(a, la) && vector(x, a.rows, lx) && vector_target(y, a.rows, ly)
}

#[tactic(auto, using(crate::proofs::Sizes::sizes), unfolding(crate::specs::Quick::quick_her))]
pub fn quick_her(x: View, lx: usize, a: View, la: usize) -> bool
    ensures { result ≡ specs.quick_her x lx a la }
{
    square(a) && vector(x, a.rows, lx) && written(a, la)
}

#[tactic(auto, using(crate::proofs::Sizes::sizes), unfolding(crate::specs::Quick::quick_her2))]
pub fn quick_her2(x: View, lx: usize, y: View, ly: usize, a: View, la: usize) -> bool
    ensures { result ≡ specs.quick_her2 x lx y ly a la }
{
    square(a) && vector(x, a.rows, lx) && vector(y, a.rows, ly) && written(a, la)
}

// trmv and trsv.
#[tactic(auto, using(crate::proofs::Sizes::sizes), unfolding(crate::specs::Quick::quick_trmv))]
pub fn quick_trmv(a: View, la: usize, x: View, lx: usize) -> bool
    ensures { result ≡ specs.quick_trmv a la x lx }
{
    square(a) && plain(a, la) && vector_target(x, a.rows, lx)
}

// gemm, of the views of op(A) and op(B).
#[tactic(auto, using(crate::proofs::Sizes::beside), unfolding(crate::specs::Quick::quick_gemm))]
pub fn quick_gemm(a: View, la: usize, b: View, lb: usize, c: View, lc: usize) -> bool
    ensures { result ≡ specs.quick_gemm a la b lb c lc }
{
    small(c)
        && few(a.cols)
        && shapes::gemm(Trans::NoTrans, Trans::NoTrans, a, b, c)
        && written(c, lc)
        && plain(a, la)
        && plain(b, lb)
}

// symm and hemm.
#[tactic(auto, using(crate::proofs::Sizes::beside), unfolding(crate::specs::Quick::quick_symm))]
pub fn quick_symm(side: Side, a: View, la: usize, b: View, lb: usize, c: View, lc: usize) -> bool
    ensures { result ≡ specs.quick_symm side a la b lb c lc }
{
    shapes::symm(side, a, b, c) && small(c) && plain(a, la) && plain(b, lb) && written(c, lc)
}

// syrk and herk.
#[tactic(auto, using(crate::proofs::Sizes::beside), unfolding(crate::specs::Quick::quick_syrk))]
pub fn quick_syrk(t: Trans, a: View, la: usize, c: View, lc: usize) -> bool
    ensures { result ≡ specs.quick_syrk t a la c lc }
{
    small(a) && shapes::syrk(t, a, c) && plain(a, la) && written(c, lc)
}

// syr2k and her2k.
#[tactic(auto, using(crate::proofs::Sizes::beside), unfolding(crate::specs::Quick::quick_syr2k))]
pub fn quick_syr2k(t: Trans, a: View, la: usize, b: View, lb: usize, c: View, lc: usize) -> bool
    ensures { result ≡ specs.quick_syr2k t a la b lb c lc }
{
    small(a) && shapes::syr2k(t, a, b, c) && plain(a, la) && plain(b, lb) && written(c, lc)
}

// trmm and trsm.
#[tactic(auto, using(crate::proofs::Sizes::beside), unfolding(crate::specs::Quick::quick_trmm))]
pub fn quick_trmm(side: Side, a: View, la: usize, b: View, lb: usize) -> bool
    ensures { result ≡ specs.quick_trmm side a la b lb }
{
    small(b) && shapes::trmm(side, a, b) && plain(a, la) && written(b, lb)
}
