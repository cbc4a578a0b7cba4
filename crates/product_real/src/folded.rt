// Sums of products with a matrix of which one triangle is read, eight side by side: each turns from one pair of factors to another where it meets the diagonal.

ghost use Rattle.std.specs.Prelude.{◌≡◌, ◌<◌, ◌≤◌, ◌+◌, ◌-◌};
ghost use Rattle.number.specs.Kind.{kind};
ghost use Rattle.view.specs.Refusals.{limit};
ghost use Rattle.slabs.specs.Eight.{lane, Lanes};
ghost use Rattle.slabs.specs.Run.{plus_terms};
ghost use Rattle.product_plan.specs.Plan.{terms_before, folded_term, folded_product};
ghost use Rattle.product_plan.specs.Plans.{left_turn, right_turn};
ghost use Rattle.product_plan.specs.Work.{CanFold};

use crate::block::add_eight;
use kinds::Real;
use product_plan::{Folded, Operands};
use slabs::zeros;

// Term p of element (i, j), of which the terms from k on are after the turn.
fn folded_term<R: Real>(
    ops: &Operands<R>,
    plan: Folded,
    k: usize,
    i: usize,
    j: usize,
    p: usize,
) -> R
    requires { CanFold R.numbers plan ops.now × (i < plan.target.rows) × (j < plan.target.cols) × (p < plan.terms) × (k ≡ terms_before plan.turn i j) }
    ensures { result ≡ folded_term (kind R.numbers) plan ops.now.a.now ops.now.b.now i j p }
{
    if p < k {
        ops.term(plan.head, i, j, p)
    } else {
        ops.term(plan.tail, i, j, p)
    }
}

// The sums of elements (i, j) to (i, j + 7), A on the right, each with its term p added, before its turn or after it.
fn plus_turning<R: Real>(
    ops: &Operands<R>,
    plan: Folded,
    i: usize,
    j: usize,
    p: usize,
    sums: [R; 8],
) -> [R; 8]
    requires { CanFold R.numbers plan ops.now × (plan.turn ≡ right_turn) × (i < plan.target.rows) × (j + 8 ≤ plan.target.cols) × (plan.target.cols ≤ limit) × (p < plan.terms) }
    ensures { Lanes (kind R.numbers) 8 result (λ t. R.numbers.add (lane (kind R.numbers) sums t) (folded_term (kind R.numbers) plan ops.now.a.now ops.now.b.now i (j + t) p)) }
{
    let mut next = sums;
    for t in 0..8 {
        next[t] = next[t].add(folded_term(ops, plan, j + t + 1, i, j + t, p));
    }
    next
}

// The same with the terms from `from` to before `end`.
fn add_turning<R: Real>(
    ops: &Operands<R>,
    plan: Folded,
    i: usize,
    j: usize,
    from: usize,
    end: usize,
    sums: [R; 8],
) -> [R; 8]
    requires { CanFold R.numbers plan ops.now × (plan.turn ≡ right_turn) × (i < plan.target.rows) × (j + 8 ≤ plan.target.cols) × (plan.target.cols ≤ limit) × (from ≤ end) × (end ≤ plan.terms) }
    ensures { Lanes (kind R.numbers) 8 result (λ t. plus_terms (kind R.numbers) (lane (kind R.numbers) sums t) (folded_term (kind R.numbers) plan ops.now.a.now ops.now.b.now i (j + t)) from (end - from)) }
{
    let mut totals = sums;
    for p in from..end {
        totals = plus_turning(ops, plan, i, j, p, totals);
    }
    totals
}

// The sums of elements (i, j) to (i, j + 7), A on the left: all turn at row i.
pub(crate) fn left_eight<R: Real>(ops: &Operands<R>, plan: Folded, i: usize, j: usize) -> [R; 8]
    requires { CanFold R.numbers plan ops.now × (plan.turn ≡ left_turn) × (i < plan.target.rows) × (j + 8 ≤ plan.target.cols) }
    ensures { Lanes (kind R.numbers) 8 result (λ t. folded_product (kind R.numbers) plan ops.now.a.now ops.now.b.now i (j + t)) }
{
    let head = add_eight(ops, plan.head, i, j, 0, i, zeros());
    add_eight(ops, plan.tail, i, j, i, plan.terms, head)
}

// The same with A on the right: they turn one after the other, from the first one's column on.
pub(crate) fn right_eight<R: Real>(ops: &Operands<R>, plan: Folded, i: usize, j: usize) -> [R; 8]
    requires { CanFold R.numbers plan ops.now × (plan.turn ≡ right_turn) × (i < plan.target.rows) × (j + 8 ≤ plan.target.cols) × (plan.target.cols ≤ limit) }
    ensures { Lanes (kind R.numbers) 8 result (λ t. folded_product (kind R.numbers) plan ops.now.a.now ops.now.b.now i (j + t)) }
{
    let head = add_eight(ops, plan.head, i, j, 0, j + 1, zeros());
    let bent = add_turning(ops, plan, i, j, j + 1, j + 8, head);
    add_eight(ops, plan.tail, i, j, j + 8, plan.terms, bent)
}
