// The plan of each routine, for views that its check has passed.

ghost use Rattle.std.specs.Prelude.{◌≡◌, true};
ghost use Rattle.view.specs.Checks.{vector_of};
ghost use Rattle.blas.specs.Syrk.{syrk_left, syrk_right};
ghost use Rattle.blas.specs.Herk.{herk_left, herk_right};
ghost use Rattle.product_plan.specs.Plans.{op_factors, op_plan, turned_plan, column_plan, hemv_plan, left_factors, right_factors, is_upper, row_turn, col_turn, left_plan, right_plan, upper_of, is_left, element_plan, syrk_plan, herk_plan};

use crate::plan::{Factors, Folded, Plan, Turn};
use view::{Side, Trans, UpLo, View};

// op(A) and op(B).
fn op_factors(ta: Trans, tb: Trans, a: View, b: View) -> Factors
    ensures { result ≡ op_factors ta tb a b }
{
    Factors {
        left: a.op(ta),
        left_conj: ta.conjugates(),
        right: b.op(tb),
        right_conj: tb.conjugates(),
    }
}

fn op_plan(ta: Trans, tb: Trans, a: View, b: View, terms: usize, c: View) -> Plan
    ensures { result ≡ op_plan ta tb a b terms c }
{
    Plan {
        factors: op_factors(ta, tb, a, b),
        terms,
        target: c,
    }
}

// Of the views of op(A) and op(B), and whether they conjugate.
pub fn gemm_plan(left_conj: bool, left: View, right_conj: bool, right: View, c: View) -> Plan
    ensures { result ≡ turned_plan left_conj left right_conj right c }
{
    Plan {
        factors: Factors {
            left,
            left_conj,
            right,
            right_conj,
        },
        terms: left.cols,
        target: c,
    }
}

// Of op(A)'s view, and whether op conjugates.
pub fn gemv_plan(conj: bool, a: View, x: View, y: View) -> Plan
    requires { (vector_of x a.cols ≡ true) × (vector_of y a.rows ≡ true) }
    ensures { result ≡ column_plan conj a x y }
{
    gemm_plan(conj, a, false, x.column(a.cols), y.column(a.rows))
}

// A, or its mirror image, on the left of B.
fn left_factors(mirrored: bool, conj: bool, a: View, b: View) -> Factors
    ensures { result ≡ left_factors mirrored conj a b }
{
    if mirrored {
        Factors {
            left: a.transposed(),
            left_conj: conj,
            right: b,
            right_conj: false,
        }
    } else {
        Factors {
            left: a,
            left_conj: false,
            right: b,
            right_conj: false,
        }
    }
}

// A, or its mirror image, on the right of B.
fn right_factors(mirrored: bool, conj: bool, a: View, b: View) -> Factors
    ensures { result ≡ right_factors mirrored conj a b }
{
    if mirrored {
        Factors {
            left: b,
            left_conj: false,
            right: a.transposed(),
            right_conj: conj,
        }
    } else {
        Factors {
            left: b,
            left_conj: false,
            right: a,
            right_conj: false,
        }
    }
}

fn is_upper(uplo: UpLo) -> bool
    ensures { result ≡ is_upper uplo }
{
    matches!(uplo, UpLo::Upper)
}

// Where row i of A leaves a triangle: the upper one begins with the diagonal, the lower one ends with it.
fn row_turn(uplo: UpLo) -> Turn
    ensures { result ≡ row_turn uplo }
{
    match uplo {
        UpLo::Upper => Turn::AtRow,
        UpLo::Lower => Turn::PastRow,
    }
}

// Where column j of A does.
fn col_turn(uplo: UpLo) -> Turn
    ensures { result ≡ col_turn uplo }
{
    match uplo {
        UpLo::Upper => Turn::PastCol,
        UpLo::Lower => Turn::AtCol,
    }
}

// A on the left of B.
pub fn left_plan(conj: bool, uplo: UpLo, a: View, b: View, terms: usize, c: View) -> Folded
    ensures { result ≡ left_plan conj uplo a b terms c }
{
    let upper = is_upper(uplo);
    Folded {
        turn: row_turn(uplo),
        head: left_factors(upper, conj, a, b),
        tail: left_factors(!upper, conj, a, b),
        terms,
        target: c,
    }
}

// A on the right of B.
pub fn right_plan(conj: bool, uplo: UpLo, a: View, b: View, terms: usize, c: View) -> Folded
    ensures { result ≡ right_plan conj uplo a b terms c }
{
    let upper = is_upper(uplo);
    Folded {
        turn: col_turn(uplo),
        head: right_factors(!upper, conj, a, b),
        tail: right_factors(upper, conj, a, b),
        terms,
        target: c,
    }
}

// The view whose upper triangle is A's named one: A's own, or its transpose.
pub fn upper_view(uplo: UpLo, a: View) -> View
    ensures { result ≡ upper_of uplo a }
{
    match uplo {
        UpLo::Upper => a,
        UpLo::Lower => a.transposed(),
    }
}

pub fn is_left(side: Side) -> bool
    ensures { result ≡ is_left side }
{
    matches!(side, Side::Left)
}

// A on the left of B, its upper triangle read in u; on the right, the transposed call, of which element (j, i) is the call's (i, j).
pub fn element_plan(side: Side, u: View, b: View, c: View) -> Folded
    ensures { result ≡ element_plan side u b c }
{
    match side {
        Side::Left => left_plan(false, UpLo::Upper, u, b, c.rows, c),
        Side::Right => left_plan(
            false,
            UpLo::Upper,
            u,
            b.transposed(),
            c.cols,
            c.transposed(),
        ),
    }
}

pub fn hemv_plan(uplo: UpLo, a: View, x: View, y: View) -> Folded
    requires { (vector_of x a.rows ≡ true) × (vector_of y a.rows ≡ true) }
    ensures { result ≡ hemv_plan uplo a x y }
{
    let n = a.rows;
    left_plan(true, uplo, a, x.column(n), n, y.column(n))
}

fn syrk_left(t: Trans) -> Trans
    ensures { result ≡ syrk_left t }
{
    match t {
        Trans::NoTrans => Trans::NoTrans,
        Trans::Trans | Trans::ConjTrans => Trans::Trans,
    }
}

fn syrk_right(t: Trans) -> Trans
    ensures { result ≡ syrk_right t }
{
    match t {
        Trans::NoTrans => Trans::Trans,
        Trans::Trans | Trans::ConjTrans => Trans::NoTrans,
    }
}

fn herk_left(t: Trans) -> Trans
    ensures { result ≡ herk_left t }
{
    match t {
        Trans::NoTrans => Trans::NoTrans,
        Trans::Trans | Trans::ConjTrans => Trans::ConjTrans,
    }
}

fn herk_right(t: Trans) -> Trans
    ensures { result ≡ herk_right t }
{
    match t {
        Trans::NoTrans => Trans::ConjTrans,
        Trans::Trans | Trans::ConjTrans => Trans::NoTrans,
    }
}

pub fn syrk_plan(t: Trans, a: View, c: View) -> Plan
    ensures { result ≡ syrk_plan t a c }
{
    op_plan(syrk_left(t), syrk_right(t), a, a, a.op_cols(t), c)
}

pub fn herk_plan(t: Trans, a: View, c: View) -> Plan
    ensures { result ≡ herk_plan t a c }
{
    op_plan(herk_left(t), herk_right(t), a, a, a.op_cols(t), c)
}
