// Products with A's upper triangle on either side, for symm and hemm: the conjugate of a real number is itself.

ghost use Rattle.std.specs.Prelude.{◌≡◌, false, cond, ◌<◌, ◌≤◌, ◌+◌};
ghost use Rattle.number.specs.Kind.{kind};
ghost use Rattle.number.specs.Scaling.{scale_by};
ghost use Rattle.view.specs.Refusals.{limit};
ghost use Rattle.slabs.specs.Eight.{Lanes};
ghost use Rattle.slabs.specs.Update.{everywhere, replaced, update_row, update};
ghost use Rattle.product_plan.specs.Plan.{across, folded_product};
ghost use Rattle.product_plan.specs.Plans.{upper_turn, element_plan, is_left, ReadySided, sided_work};
ghost use Rattle.product_plan.specs.Work.{folded_work, across_work, CanFold, CanRunFolded, CanRunAcross};

use crate::folded::{left_eight, right_eight};
use kinds::Real;
use product_plan::{Folded, Operands, element_plan, is_left, left_plan, right_plan};
use slabs::block_start;
use view::{Side, UpLo, View};

// The sums of elements (i, j) to (i, j + 7), A on the side that LEFT says.
fn side_eight<R: Real, const LEFT: bool>(
    ops: &Operands<R>,
    plan: Folded,
    i: usize,
    j: usize,
) -> [R; 8]
    requires { CanFold R.numbers plan ops.now × (plan.turn ≡ upper_turn LEFT) × (i < plan.target.rows) × (j + 8 ≤ plan.target.cols) × (plan.target.cols ≤ limit) }
    ensures { Lanes (kind R.numbers) 8 result (λ t. folded_product (kind R.numbers) plan ops.now.a.now ops.now.b.now i (j + t)) }
{
    if LEFT {
        left_eight(ops, plan, i, j)
    } else {
        right_eight(ops, plan, i, j)
    }
}

// Row i of the target, eight columns at a time. Each side has loops of its own, so that the compiler knows in them what turns when.
fn wide_row<R: Real, const LEFT: bool>(ops: &Operands<R>, plan: Folded, c: &mut [R::Cell], i: usize)
    requires { CanRunFolded R.numbers plan ops.now c.old × (plan.turn ≡ upper_turn LEFT) × (i < plan.target.rows) × (8 ≤ plan.target.cols) }
    ensures { c.new ≡ update_row (kind R.numbers) plan.target everywhere (folded_work R.numbers R.multipliers plan ops.now) i plan.target.cols c.old }
{
    let n = plan.target.cols;
    for j in (0..n).step_by(8) {
        let from = block_start(8, j, n);
        let sums = side_eight::<R, LEFT>(ops, plan, i, from);
        ops.settle_block(plan.target, c, i, from, j, from + 8, sums);
    }
}

// The whole target, A on the side that LEFT says.
#[tactic(auto, using(product_plan::proofs::Steps::rows))]
fn run_wide<R: Real, const LEFT: bool>(ops: &Operands<R>, plan: Folded, c: &mut [R::Cell])
    requires { CanRunFolded R.numbers plan ops.now c.old × (plan.turn ≡ upper_turn LEFT) × (8 ≤ plan.target.cols) }
    ensures { c.new ≡ update (kind R.numbers) plan.target everywhere (folded_work R.numbers R.multipliers plan ops.now) c.old }
{
    for i in 0..plan.target.rows {
        wide_row::<R, LEFT>(ops, plan, c, i);
    }
}

// The whole target, eight columns at a time.
#[inline(never)]
fn wide<R: Real>(side: Side, ops: &Operands<R>, u: View, vb: View, c: &mut [R::Cell], vc: View)
    requires { ReadySided side false UpLo.Upper u (R.numbers.count ops.now.a.now) vb (R.numbers.count ops.now.b.now) vc (R.numbers.count c.old) × (8 ≤ vc.cols) }
    ensures { c.new ≡ sided_work (kind R.numbers) side false UpLo.Upper u vb vc (scale_by R.numbers R.multipliers ops.now.beta) (R.multipliers.times ops.now.alpha) ops.now.a.now ops.now.b.now c.old }
{
    match side {
        Side::Left => {
            let plan = left_plan(false, UpLo::Upper, u, vb, vc.rows, vc);
            let own: Operands<R> = Operands {
                a: ops.a,
                b: ops.b,
                alpha: ops.alpha,
                beta: ops.beta,
            };
            run_wide::<R, true>(&own, plan, c);
        },
        Side::Right => {
            let plan = right_plan(false, UpLo::Upper, u, vb, vc.cols, vc);
            run_wide::<R, false>(&ops.exchanged(), plan, c);
        },
    }
}

// The first of two numbers, or the second.
#[inline(always)]
fn chosen(first: bool, x: usize, y: usize) -> usize
    ensures { result ≡ cond first x y }
{
    if first { x } else { y }
}

// The sum of element (i, j) of a target that stands as a folded plan's does, or across it.
#[inline(always)]
fn across_sum<R: Real>(straight: bool, ops: &Operands<R>, plan: Folded, i: usize, j: usize) -> R
    requires { CanFold R.numbers plan ops.now × (cond straight i j < plan.target.rows) × (cond straight j i < plan.target.cols) }
    ensures { result ≡ across (kind R.numbers) straight (folded_product (kind R.numbers) plan ops.now.a.now ops.now.b.now) i j }
{
    ops.folded_sum(plan, chosen(straight, i, j), chosen(straight, j, i))
}

// Element (i, j) of a target v that stands as a folded plan's does, or across it.
#[inline(always)]
fn across_entry<R: Real>(
    straight: bool,
    ops: &Operands<R>,
    plan: Folded,
    c: &mut [R::Cell],
    v: View,
    i: usize,
    j: usize,
)
    requires { CanRunAcross R.numbers straight plan ops.now v c.old × (i < v.rows) × (j < v.cols) }
    ensures { c.new ≡ replaced (kind R.numbers) v i j (across_work R.numbers R.multipliers straight plan ops.now i j) c.old }
{
    ops.settle(v, c, i, j, across_sum(straight, ops, plan, i, j));
}

// Row i of the target, element by element.
#[inline(always)]
#[tactic(auto, using(product_plan::proofs::Steps::rows))]
fn across_row<R: Real>(
    straight: bool,
    ops: &Operands<R>,
    plan: Folded,
    c: &mut [R::Cell],
    v: View,
    i: usize,
)
    requires { CanRunAcross R.numbers straight plan ops.now v c.old × (i < v.rows) }
    ensures { c.new ≡ update_row (kind R.numbers) v everywhere (across_work R.numbers R.multipliers straight plan ops.now) i v.cols c.old }
{
    for j in 0..v.cols {
        across_entry(straight, ops, plan, c, v, i, j);
    }
}

// The whole target, element by element.
#[inline(always)]
#[tactic(auto, using(product_plan::proofs::Steps::rows))]
fn across<R: Real>(straight: bool, ops: &Operands<R>, plan: Folded, c: &mut [R::Cell], v: View)
    requires { CanRunAcross R.numbers straight plan ops.now v c.old }
    ensures { c.new ≡ update (kind R.numbers) v everywhere (across_work R.numbers R.multipliers straight plan ops.now) c.old }
{
    for i in 0..v.rows {
        across_row(straight, ops, plan, c, v, i);
    }
}

// The whole target, with A's upper triangle in u. A call of its own, so that its plan is on the stack for no other.
#[inline(never)]
fn narrow<R: Real>(side: Side, ops: &Operands<R>, u: View, vb: View, c: &mut [R::Cell], vc: View)
    requires { CanRunAcross R.numbers (is_left side) (element_plan side u vb vc) ops.now vc c.old }
    ensures { c.new ≡ update (kind R.numbers) vc everywhere (across_work R.numbers R.multipliers (is_left side) (element_plan side u vb vc) ops.now) c.old }
{
    let own: Operands<R> = Operands {
        a: ops.a,
        b: ops.b,
        alpha: ops.alpha,
        beta: ops.beta,
    };
    across(is_left(side), &own, element_plan(side, u, vb, vc), c, vc);
}

// symm's and hemm's target, with A's upper triangle in u.
#[inline(always)]
pub(crate) fn run<R: Real>(
    side: Side,
    ops: &Operands<R>,
    u: View,
    vb: View,
    c: &mut [R::Cell],
    vc: View,
)
    requires { ReadySided side false UpLo.Upper u (R.numbers.count ops.now.a.now) vb (R.numbers.count ops.now.b.now) vc (R.numbers.count c.old) }
    ensures { c.new ≡ sided_work (kind R.numbers) side false UpLo.Upper u vb vc (scale_by R.numbers R.multipliers ops.now.beta) (R.multipliers.times ops.now.alpha) ops.now.a.now ops.now.b.now c.old }
{
    if 8 <= vc.cols {
        wide(side, ops, u, vb, c, vc);
    } else {
        narrow(side, ops, u, vb, c, vc);
    }
}
