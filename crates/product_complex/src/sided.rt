// Products with A, of which the named triangle is read, on either side, for symm and hemm; A's other elements are mirrored, and conjugated for hemm.

ghost use Rattle.std.specs.Prelude.{◌≡◌, ◌<◌};
ghost use Rattle.number.specs.Kind.{complex, complex_numbers};
ghost use Rattle.number.specs.Scaling.{complex_multipliers, scale_by};
ghost use Rattle.slabs.specs.Update.{everywhere, update_row, update};
ghost use Rattle.product_plan.specs.Plan.{ByRow};
ghost use Rattle.product_plan.specs.Plans.{ReadySided, sided_work};
ghost use Rattle.product_plan.specs.Work.{folded_work, CanRunFolded};

use kinds::Complex;
use product_plan::{Folded, Operands, left_plan, right_plan};
use view::{Side, UpLo, View};

// Row i of the target, A on the left: all its elements turn at one place.
#[inline(always)]
#[tactic(auto, using(product_plan::proofs::Steps::rows))]
fn left_row(ops: &Operands<Complex>, plan: Folded, c: &mut [f64], i: usize)
    requires { CanRunFolded complex_numbers plan ops.now c.old × ByRow plan × (i < plan.target.rows) }
    ensures { c.new ≡ update_row complex plan.target everywhere (folded_work complex_numbers complex_multipliers plan ops.now) i plan.target.cols c.old }
{
    let k = plan.turn.at(i, 0, plan.terms);
    for j in 0..plan.target.cols {
        ops.turned_entry(plan, k, c, i, j);
    }
}

// The whole target, A on the left.
#[inline(always)]
#[tactic(auto, using(product_plan::proofs::Steps::rows))]
fn run_left(ops: &Operands<Complex>, plan: Folded, c: &mut [f64])
    requires { CanRunFolded complex_numbers plan ops.now c.old × ByRow plan }
    ensures { c.new ≡ update complex plan.target everywhere (folded_work complex_numbers complex_multipliers plan ops.now) c.old }
{
    for i in 0..plan.target.rows {
        left_row(ops, plan, c, i);
    }
}

// Row i of the target, A on the right: each element turns at its own place.
#[inline(always)]
#[tactic(auto, using(product_plan::proofs::Steps::rows))]
fn right_row(ops: &Operands<Complex>, plan: Folded, c: &mut [f64], i: usize)
    requires { CanRunFolded complex_numbers plan ops.now c.old × (i < plan.target.rows) }
    ensures { c.new ≡ update_row complex plan.target everywhere (folded_work complex_numbers complex_multipliers plan ops.now) i plan.target.cols c.old }
{
    for j in 0..plan.target.cols {
        ops.folded_entry(plan, c, i, j);
    }
}

// The whole target, A on the right.
#[inline(always)]
#[tactic(auto, using(product_plan::proofs::Steps::rows))]
fn run_right(ops: &Operands<Complex>, plan: Folded, c: &mut [f64])
    requires { CanRunFolded complex_numbers plan ops.now c.old }
    ensures { c.new ≡ update complex plan.target everywhere (folded_work complex_numbers complex_multipliers plan ops.now) c.old }
{
    for i in 0..plan.target.rows {
        right_row(ops, plan, c, i);
    }
}

// A on the left: each triangle has loops of its own, in which the compiler knows what is conjugated.
#[inline(always)]
fn left(
    conj: bool,
    uplo: UpLo,
    ops: &Operands<Complex>,
    va: View,
    vb: View,
    c: &mut [f64],
    vc: View,
)
    requires { ReadySided Side.Left conj uplo va (complex.count ops.now.a.now) vb (complex.count ops.now.b.now) vc (complex.count c.old) }
    ensures { c.new ≡ sided_work complex Side.Left conj uplo va vb vc (scale_by complex_numbers complex_multipliers ops.now.beta) (complex_multipliers.times ops.now.alpha) ops.now.a.now ops.now.b.now c.old }
{
    match uplo {
        UpLo::Upper => run_left(ops, left_plan(conj, UpLo::Upper, va, vb, vc.rows, vc), c),
        UpLo::Lower => run_left(ops, left_plan(conj, UpLo::Lower, va, vb, vc.rows, vc), c),
    }
}

// A on the side that is named, its mirrored elements conjugated where conj says so.
#[inline(always)]
pub(crate) fn run(
    conj: bool,
    side: Side,
    uplo: UpLo,
    ops: &Operands<Complex>,
    va: View,
    vb: View,
    c: &mut [f64],
    vc: View,
)
    requires { ReadySided side conj uplo va (complex.count ops.now.a.now) vb (complex.count ops.now.b.now) vc (complex.count c.old) }
    ensures { c.new ≡ sided_work complex side conj uplo va vb vc (scale_by complex_numbers complex_multipliers ops.now.beta) (complex_multipliers.times ops.now.alpha) ops.now.a.now ops.now.b.now c.old }
{
    match side {
        Side::Left => left(conj, uplo, ops, va, vb, c, vc),
        Side::Right => {
            let plan = right_plan(conj, uplo, va, vb, vc.cols, vc);
            run_right(&ops.exchanged(), plan, c);
        },
    }
}
