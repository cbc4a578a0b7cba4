// The check of each routine: the answer that the refusals 1 to 4 give, or Done. Arguments in the Rust's order, each view
// with the length of its slab in elements, as the definitions (view, specs/Checks) and the theorems on them have it;
// flags that no shape rule looks at are left out. Each takes what the quick test of the call answered: a call that
// passed it is done.
//
// A view is passed by its place in memory. So what takes views is put into its caller, which then need not store them,
// and what is called takes numbers (`within`, `steps_meet`).

#![tactic(auto)]

mod bounds;
pub mod quick;
mod shapes;
mod sharing;

ghost use Rattle.std.specs.Prelude.{◌≡◌, [], ◌∷◌};
ghost use Rattle.view.specs.Judge.{arg, judge, lowest_of};
ghost use Rattle.view.specs.Place.{op_view_of};
ghost use Rattle.view.specs.Checks as specs;
ghost use Rattle.call_check.specs.Quick.{quick_gemv, quick_hemv, quick_her, quick_her2, quick_trmv, quick_gemm, quick_symm, quick_syrk, quick_syr2k, quick_trmm};

use crate::bounds::{out_of_bounds, too_large};
use crate::sharing::overlap;
pub use bounds::LIMIT;
use view::{Answer, Side, Trans, View};

// The lowest refusal met, by whether some view is too large, some is out of bounds, and the shapes are wrong.
#[inline(always)]
fn lowest(large: bool, out: bool, wrong: bool, target: View) -> Answer
    ensures { result ≡ lowest_of large out wrong target }
{
    if large {
        Answer::TooLarge
    } else if out {
        Answer::OutOfBounds
    } else if wrong {
        Answer::ShapeMismatch
    } else if overlap(target) {
        Answer::Overlap
    } else {
        Answer::Done
    }
}

// A call with two views, the second its target. Where the flags are out of their range no shapes go together.
#[tactic(auto, unfolding(view::specs::Judge::judge))]
#[inline(always)]
pub fn judge2(a: View, la: usize, b: View, lb: usize, shapes: bool) -> Answer
    ensures { result ≡ judge (arg a la ∷ arg b lb ∷ []) shapes b }
{
    let large = too_large(a) || too_large(b);
    let out = out_of_bounds(a, la) || out_of_bounds(b, lb);
    lowest(large, out, !shapes, b)
}

// A call with three views, the third its target.
#[tactic(auto, unfolding(view::specs::Judge::judge))]
#[inline(always)]
pub fn judge3(a: View, la: usize, b: View, lb: usize, c: View, lc: usize, shapes: bool) -> Answer
    ensures { result ≡ judge (arg a la ∷ arg b lb ∷ arg c lc ∷ []) shapes c }
{
    let large = too_large(a) || too_large(b) || too_large(c);
    let out = out_of_bounds(a, la) || out_of_bounds(b, lb) || out_of_bounds(c, lc);
    lowest(large, out, !shapes, c)
}

// A view that is only read, by itself: no shape rule looks at it, and nothing is written.
#[tactic(auto, unfolding(view::specs::Judge::judge))]
pub fn check_read(v: View, len: usize) -> Answer
    ensures { result ≡ specs.read_check v len }
{
    let none = View::new(0, 0, 0, 0, 0);
    lowest(too_large(v), out_of_bounds(v, len), false, none)
}

#[tactic(auto, using(crate::proofs::Ops::passes))]
#[inline(always)]
pub fn check_gemv(
    quick: bool,
    t: Trans,
    a: View,
    la: usize,
    x: View,
    lx: usize,
    y: View,
    ly: usize,
) -> Answer
    requires { quick ≡ quick_gemv (op_view_of t a) la x lx y ly }
    ensures { result ≡ specs.gemv_check t a la x lx y ly }
{
    if quick {
        Answer::Done
    } else {
        judge3(a, la, x, lx, y, ly, shapes::gemv(t, a, x, y))
    }
}

#[tactic(auto, using(crate::proofs::Ops::passes))]
#[inline(always)]
pub fn check_hemv(quick: bool, a: View, la: usize, x: View, lx: usize, y: View, ly: usize) -> Answer
    requires { quick ≡ quick_hemv a la x lx y ly }
    ensures { result ≡ specs.hemv_check a la x lx y ly }
{
    if quick {
        Answer::Done
    } else {
        judge3(a, la, x, lx, y, ly, shapes::hemv(a, x, y))
    }
}

#[tactic(auto, using(crate::proofs::Ops::passes))]
#[inline(always)]
pub fn check_her(quick: bool, x: View, lx: usize, a: View, la: usize) -> Answer
    requires { quick ≡ quick_her x lx a la }
    ensures { result ≡ specs.her_check x lx a la }
{
    if quick {
        Answer::Done
    } else {
        judge2(x, lx, a, la, shapes::trmv(a, x))
    }
}

#[tactic(auto, using(crate::proofs::Ops::passes))]
#[inline(always)]
pub fn check_her2(quick: bool, x: View, lx: usize, y: View, ly: usize, a: View, la: usize) -> Answer
    requires { quick ≡ quick_her2 x lx y ly a la }
    ensures { result ≡ specs.her2_check x lx y ly a la }
{
    if quick {
        Answer::Done
    } else {
        judge3(x, lx, y, ly, a, la, shapes::hemv(a, x, y))
    }
}

#[tactic(auto, using(crate::proofs::Ops::passes))]
#[inline(always)]
pub fn check_trmv(quick: bool, a: View, la: usize, x: View, lx: usize) -> Answer
    requires { quick ≡ quick_trmv a la x lx }
    ensures { result ≡ specs.trmv_check a la x lx }
{
    if quick {
        Answer::Done
    } else {
        judge2(a, la, x, lx, shapes::trmv(a, x))
    }
}

#[inline(always)]
pub fn check_trsv(quick: bool, a: View, la: usize, x: View, lx: usize) -> Answer
    requires { quick ≡ quick_trmv a la x lx }
    ensures { result ≡ specs.trsv_check a la x lx }
{
    check_trmv(quick, a, la, x, lx)
}

#[tactic(auto, using(crate::proofs::Ops::passes))]
#[inline(always)]
pub fn check_gemm(
    quick: bool,
    ta: Trans,
    tb: Trans,
    a: View,
    la: usize,
    b: View,
    lb: usize,
    c: View,
    lc: usize,
) -> Answer
    requires { quick ≡ quick_gemm (op_view_of ta a) la (op_view_of tb b) lb c lc }
    ensures { result ≡ specs.gemm_check ta tb a la b lb c lc }
{
    if quick {
        Answer::Done
    } else {
        judge3(a, la, b, lb, c, lc, shapes::gemm(ta, tb, a, b, c))
    }
}

#[tactic(auto, using(crate::proofs::Ops::passes))]
#[inline(always)]
pub fn check_symm(
    quick: bool,
    side: Side,
    a: View,
    la: usize,
    b: View,
    lb: usize,
    c: View,
    lc: usize,
) -> Answer
    requires { quick ≡ quick_symm side a la b lb c lc }
    ensures { result ≡ specs.symm_check side a la b lb c lc }
{
    if quick {
        Answer::Done
    } else {
        judge3(a, la, b, lb, c, lc, shapes::symm(side, a, b, c))
    }
}

#[inline(always)]
pub fn check_hemm(
    quick: bool,
    side: Side,
    a: View,
    la: usize,
    b: View,
    lb: usize,
    c: View,
    lc: usize,
) -> Answer
    requires { quick ≡ quick_symm side a la b lb c lc }
    ensures { result ≡ specs.hemm_check side a la b lb c lc }
{
    check_symm(quick, side, a, la, b, lb, c, lc)
}

#[tactic(auto, using(crate::proofs::Ops::passes))]
#[inline(always)]
pub fn check_syrk(quick: bool, t: Trans, a: View, la: usize, c: View, lc: usize) -> Answer
    requires { quick ≡ quick_syrk t a la c lc }
    ensures { result ≡ specs.syrk_check t a la c lc }
{
    if quick {
        Answer::Done
    } else {
        judge2(a, la, c, lc, shapes::syrk(t, a, c))
    }
}

#[inline(always)]
pub fn check_herk(quick: bool, t: Trans, a: View, la: usize, c: View, lc: usize) -> Answer
    requires { quick ≡ quick_syrk t a la c lc }
    ensures { result ≡ specs.herk_check t a la c lc }
{
    check_syrk(quick, t, a, la, c, lc)
}

#[tactic(auto, using(crate::proofs::Ops::passes))]
#[inline(always)]
pub fn check_syr2k(
    quick: bool,
    t: Trans,
    a: View,
    la: usize,
    b: View,
    lb: usize,
    c: View,
    lc: usize,
) -> Answer
    requires { quick ≡ quick_syr2k t a la b lb c lc }
    ensures { result ≡ specs.syr2k_check t a la b lb c lc }
{
    if quick {
        Answer::Done
    } else {
        judge3(a, la, b, lb, c, lc, shapes::syr2k(t, a, b, c))
    }
}

#[inline(always)]
pub fn check_her2k(
    quick: bool,
    t: Trans,
    a: View,
    la: usize,
    b: View,
    lb: usize,
    c: View,
    lc: usize,
) -> Answer
    requires { quick ≡ quick_syr2k t a la b lb c lc }
    ensures { result ≡ specs.her2k_check t a la b lb c lc }
{
    check_syr2k(quick, t, a, la, b, lb, c, lc)
}

#[tactic(auto, using(crate::proofs::Ops::passes))]
#[inline(always)]
pub fn check_trmm(quick: bool, side: Side, a: View, la: usize, b: View, lb: usize) -> Answer
    requires { quick ≡ quick_trmm side a la b lb }
    ensures { result ≡ specs.trmm_check side a la b lb }
{
    if quick {
        Answer::Done
    } else {
        judge2(a, la, b, lb, shapes::trmm(side, a, b))
    }
}

#[inline(always)]
pub fn check_trsm(quick: bool, side: Side, a: View, la: usize, b: View, lb: usize) -> Answer
    requires { quick ≡ quick_trmm side a la b lb }
    ensures { result ≡ specs.trsm_check side a la b lb }
{
    check_trmm(quick, side, a, la, b, lb)
}
