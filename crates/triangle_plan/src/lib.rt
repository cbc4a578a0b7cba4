// A triangular system or product, chosen before its loops, and the order in which it goes over its target: the same for every number kind.
// Translated from control-rs; NOTICE names the source.

#![tactic(auto)]

ghost use Rattle.std.specs.Prelude.{◌≡◌, ◌≤◌, ◌<◌, ◌+◌};
ghost use Rattle.blas.specs.Triangular as triangular;
ghost use Rattle.blas.specs.Substitution as substitution;
ghost use Rattle.triangle_plan.specs.Triangles.{is_left, lines_view, system_of};
ghost use Rattle.triangle_plan.specs.Solve as solve;
ghost use Rattle.triangle_plan.specs.Lanes.{eight_from};

use view::{Answer, Diag, Side, Trans, UpLo, View};

// What a triangular routine works on. Coefficient (q, p) of its equations is element (q, p) of `a`, conjugated or not; unknown p of line l is
// element (p, l) of `b`. The last unknown is solved first, or the first one is.
#[derive(Clone, Copy)]
pub struct System {
    pub side: Side,
    pub diag: Diag,
    pub conjugated: bool,
    pub last: bool,
    pub a: View,
    pub b: View,
}

// Whether op(A) is upper triangular.
fn op_upper(uplo: UpLo, t: Trans) -> bool
    ensures { result ≡ triangular.op_upper uplo t }
{
    match uplo {
        UpLo::Upper => matches!(t, Trans::NoTrans),
        UpLo::Lower => !matches!(t, Trans::NoTrans),
    }
}

// Whether the last unknown is solved first.
fn last_first(side: Side, uplo: UpLo, t: Trans) -> bool
    ensures { result ≡ substitution.last_first side uplo t }
{
    match side {
        Side::Left => op_upper(uplo, t),
        Side::Right => !op_upper(uplo, t),
    }
}

pub fn is_left(side: Side) -> bool
    ensures { result ≡ is_left side }
{
    matches!(side, Side::Left)
}

// Of m unknowns the one that comes after k others.
pub fn in_order(last: bool, m: usize, k: usize) -> usize
    requires { k < m }
    ensures { (result ≡ substitution.in_order last m k) × (result < m) }
{
    if last { m - 1 - k } else { k }
}

// The least of the k unknowns that are solved first.
pub fn least_solved(last: bool, m: usize, k: usize) -> usize
    requires { k < m }
    ensures { (result ≡ substitution.least_solved last m k) × (result + k ≤ m) }
{
    if last { m - k } else { 0 }
}

// Of m unknowns the least of the eight that come after k others.
pub fn eight_from(last: bool, m: usize, k: usize) -> usize
    requires { k + 8 ≤ m }
    ensures { (result ≡ eight_from last m k) × (result + 8 ≤ m) }
{
    if last { m - 8 - k } else { k }
}

// The view whose columns are the lines.
fn lines_view(side: Side, v: View) -> View
    ensures { result ≡ lines_view side v }
{
    match side {
        Side::Left => v,
        Side::Right => v.transposed(),
    }
}

// op(A) X = B or X op(A) = B; or the product in its place.
pub fn system_of(side: Side, uplo: UpLo, t: Trans, diag: Diag, a: View, b: View) -> System
    ensures { result ≡ system_of side uplo t diag a b }
{
    System {
        side,
        diag,
        conjugated: t.conjugates(),
        last: last_first(side, uplo, t),
        a: lines_view(side, a.op(t)),
        b: lines_view(side, b),
    }
}

// Whether a solve stops where k unknowns come before the first zero pivot: there is a line, and not all unknowns do.
#[tactic(auto, unfolding(crate::specs::Solve::stops))]
pub fn stops(sys: System, k: usize) -> bool
    ensures { result ≡ solve.stops sys k }
{
    0 < sys.b.cols && k < sys.b.rows
}

// How many of n lines are solved: all, but the first alone where a left solve stops.
pub fn lines_solved(side: Side, stopped: bool, n: usize) -> usize
    ensures { result ≡ solve.lines_solved side stopped n }
{
    match side {
        Side::Left => if stopped { 1 } else { n },
        Side::Right => n,
    }
}

// What it then answers.
pub fn solved(stopped: bool) -> Answer
    ensures { result ≡ solve.answered stopped }
{
    if stopped {
        Answer::Singular
    } else {
        Answer::Done
    }
}
