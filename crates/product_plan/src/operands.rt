// A product run by its plan, element by element: the same for every number kind.

ghost use Rattle.std.specs.Prelude.{ℕ, ◌≡◌, ◌<◌, ◌+◌, ◌-◌};
ghost use Rattle.number.specs.Kind.{kind};
ghost use Rattle.number.specs.Scaling.{scale_by};
ghost use Rattle.view.specs.Steps.{Accepted};
ghost use Rattle.view.specs.Triangle.{in_triangle};
ghost use Rattle.slabs.specs.Eight.{lane, Lanes, Block};
ghost use Rattle.slabs.specs.Elem.{Within};
ghost use Rattle.slabs.specs.Run.{plus_terms};
ghost use Rattle.slabs.specs.Update.{everywhere, replaced, span, update_row, update};
ghost use Rattle.blas.specs.Matrix.{accumulate};
ghost use Rattle.product_plan.specs.Plan.{term, terms_before, folded_product, FactorsWithin};
ghost use Rattle.product_plan.specs.Work.{plan_work, folded_work, CanRun, CanFold, CanRunFolded};

use crate::plan::{Factors, Folded, Plan};
use kinds::{Beta, Number};
use slabs::{elem_conj, place, plus_conj_lanes};
use view::{UpLo, View};

// The slabs of the left factors and of the right ones, what a sum is multiplied by, and what becomes of the target's old elements.
#[derive(Drop)]
pub struct Operands<'a, N: Number> {
    pub a: &'a [N::Cell],
    pub b: &'a [N::Cell],
    pub alpha: N::Multiplier,
    pub beta: Beta<N::Multiplier>,
}

impl<'a, N: Number> Operands<'a, N> {
    // The same with the left factors' slab for the right ones', and the other way round.
    pub fn exchanged(&self) -> Operands<'a, N>
        ensures { (result.a.now ≡ self.now.b.now) × (result.b.now ≡ self.now.a.now) × (result.alpha ≡ self.now.alpha) × (result.beta ≡ self.now.beta) }
    {
        Operands {
            a: self.b,
            b: self.a,
            alpha: self.alpha,
            beta: self.beta,
        }
    }

    // Term p of element (i, j).
    #[inline(always)]
    pub fn term(&self, f: Factors, i: usize, j: usize, p: usize) -> N
        requires { Within f.left (N.numbers.count self.now.a.now) i p × Within f.right (N.numbers.count self.now.b.now) p j }
        ensures { result ≡ term (kind N.numbers) f self.now.a.now self.now.b.now i j p }
    {
        let x: N = elem_conj(f.left_conj, self.a, f.left, i, p);
        x.mul(elem_conj(f.right_conj, self.b, f.right, p, j))
    }

    // The sum with the terms of element (i, j) from `from` to before `end` added. It and what an element of a plan that does not fold
    // needs are put into the caller whole: else the plan is in memory, which costs most of a small call.
    #[inline(always)]
    #[tactic(auto, using(crate::proofs::Steps::terms))]
    fn add_terms(&self, f: Factors, i: usize, j: usize, from: usize, end: usize, sum: N) -> N
        requires { FactorsWithin f (N.numbers.count self.now.a.now) (N.numbers.count self.now.b.now) i j from end }
        ensures { result ≡ plus_terms (kind N.numbers) sum (term (kind N.numbers) f self.now.a.now self.now.b.now i j) from (end - from) }
    {
        let mut total = sum;
        for p in from..end {
            total = total.add(self.term(f, i, j, p));
        }
        total
    }

    // The same by itself, so that the compiler settles before the loop which factors are conjugated.
    pub fn add_run(&self, f: Factors, i: usize, j: usize, from: usize, end: usize, sum: N) -> N
        requires { FactorsWithin f (N.numbers.count self.now.a.now) (N.numbers.count self.now.b.now) i j from end }
        ensures { result ≡ plus_terms (kind N.numbers) sum (term (kind N.numbers) f self.now.a.now self.now.b.now i j) from (end - from) }
    {
        self.add_terms(f, i, j, from, end, sum)
    }

    // W sums, those of elements (i, j) to before (i, j + W), with the terms from `from` to before `end` added.
    pub fn add_lanes<const W: usize>(
        &self,
        f: Factors,
        i: usize,
        j: usize,
        from: usize,
        end: usize,
        sums: [N; W],
    ) -> [N; W]
        requires { (0 < W) × ((t : ℕ) → t < W → FactorsWithin f (N.numbers.count self.now.a.now) (N.numbers.count self.now.b.now) i (j + t) from end) }
        ensures { Lanes (kind N.numbers) W result (λ t. plus_terms (kind N.numbers) (lane (kind N.numbers) sums t) (term (kind N.numbers) f self.now.a.now self.now.b.now i (j + t)) from (end - from)) }
    {
        let mut totals = sums;
        for p in from..end {
            let u: N = elem_conj(f.left_conj, self.a, f.left, i, p);
            totals = plus_conj_lanes(u, f.right_conj, self.b, f.right, p, j, totals);
        }
        totals
    }

    // Element (i, j) of a target scaled, with alpha times the sum added.
    #[inline(always)]
    pub fn settle(&self, v: View, c: &mut [N::Cell], i: usize, j: usize, sum: N)
        requires { Within v (N.numbers.count c.old) i j }
        ensures { c.new ≡ replaced (kind N.numbers) v i j (λ x. N.numbers.add (scale_by N.numbers N.multipliers self.now.beta x) (N.multipliers.times self.now.alpha sum)) c.old }
    {
        let k = place::<N>(c, v, i, j);
        let old = N::get(c, k);
        N::put(c, k, old.scaled(self.beta).add(sum.times(self.alpha)));
    }

    // Elements (i, first) to before (i, end) of a target, with the sums of those from column `from` on.
    #[tactic(auto, using(crate::proofs::Steps::columns))]
    pub fn settle_block<const W: usize>(
        &self,
        v: View,
        c: &mut [N::Cell],
        i: usize,
        from: usize,
        first: usize,
        end: usize,
        sums: [N; W],
    )
        requires { Accepted v (N.numbers.count c.old) × (i < v.rows) × Block W from first end v.cols }
        ensures { c.new ≡ span (kind N.numbers) v (accumulate (kind N.numbers) (scale_by N.numbers N.multipliers self.now.beta) (N.multipliers.times self.now.alpha) (λ i j. lane (kind N.numbers) sums (j - from))) i first end c.old }
    {
        for j in first..end {
            self.settle(v, c, i, j, sums[j - from]);
        }
    }

    // Element (i, j) of the target.
    #[inline(always)]
    #[tactic(auto, using(crate::proofs::Steps::sums))]
    pub fn entry(&self, plan: Plan, c: &mut [N::Cell], i: usize, j: usize)
        requires { CanRun N.numbers plan self.now c.old × (i < plan.target.rows) × (j < plan.target.cols) }
        ensures { c.new ≡ replaced (kind N.numbers) plan.target i j (plan_work N.numbers N.multipliers plan self.now i j) c.old }
    {
        let sum = self.add_terms(plan.factors, i, j, 0, plan.terms, N::zero());
        self.settle(plan.target, c, i, j, sum);
    }

    // Row i of the target.
    #[inline(always)]
    #[tactic(auto, using(crate::proofs::Steps::rows))]
    pub fn row(&self, plan: Plan, c: &mut [N::Cell], i: usize)
        requires { CanRun N.numbers plan self.now c.old × (i < plan.target.rows) }
        ensures { c.new ≡ update_row (kind N.numbers) plan.target everywhere (plan_work N.numbers N.multipliers plan self.now) i plan.target.cols c.old }
    {
        for j in 0..plan.target.cols {
            self.entry(plan, c, i, j);
        }
    }

    // The whole target.
    #[inline(always)]
    #[tactic(auto, using(crate::proofs::Steps::rows))]
    pub fn run(&self, plan: Plan, c: &mut [N::Cell])
        requires { CanRun N.numbers plan self.now c.old }
        ensures { c.new ≡ update (kind N.numbers) plan.target everywhere (plan_work N.numbers N.multipliers plan self.now) c.old }
    {
        for i in 0..plan.target.rows {
            self.row(plan, c, i);
        }
    }

    // Row i of the target's named triangle.
    #[inline(always)]
    #[tactic(auto, using(crate::proofs::Steps::columns))]
    fn triangle_row(&self, uplo: UpLo, plan: Plan, c: &mut [N::Cell], i: usize)
        requires { CanRun N.numbers plan self.now c.old × (i < plan.target.rows) × (i < plan.target.cols) }
        ensures { c.new ≡ update_row (kind N.numbers) plan.target (in_triangle uplo) (plan_work N.numbers N.multipliers plan self.now) i plan.target.cols c.old }
    {
        for j in uplo.first_col(i)..uplo.end_col(i, plan.target.cols) {
            self.entry(plan, c, i, j);
        }
    }

    // The target's whole named triangle.
    #[inline(always)]
    #[tactic(auto, using(crate::proofs::Steps::rows))]
    pub fn run_triangle(&self, uplo: UpLo, plan: Plan, c: &mut [N::Cell])
        requires { CanRun N.numbers plan self.now c.old × (plan.target.rows ≡ plan.target.cols) }
        ensures { c.new ≡ update (kind N.numbers) plan.target (in_triangle uplo) (plan_work N.numbers N.multipliers plan self.now) c.old }
    {
        for i in 0..plan.target.rows {
            self.triangle_row(uplo, plan, c, i);
        }
    }

    // The sum of element (i, j) of a folded plan, which turns after k terms.
    #[inline(always)]
    #[tactic(auto, using(crate::proofs::Steps::sums))]
    pub fn turned_sum(&self, plan: Folded, k: usize, i: usize, j: usize) -> N
        requires { CanFold N.numbers plan self.now × (i < plan.target.rows) × (j < plan.target.cols) × (k ≡ terms_before plan.turn i j) }
        ensures { result ≡ folded_product (kind N.numbers) plan self.now.a.now self.now.b.now i j }
    {
        let head = self.add_run(plan.head, i, j, 0, k, N::zero());
        self.add_run(plan.tail, i, j, k, plan.terms, head)
    }

    // The same, with its turn found.
    #[inline(always)]
    pub fn folded_sum(&self, plan: Folded, i: usize, j: usize) -> N
        requires { CanFold N.numbers plan self.now × (i < plan.target.rows) × (j < plan.target.cols) }
        ensures { result ≡ folded_product (kind N.numbers) plan self.now.a.now self.now.b.now i j }
    {
        self.turned_sum(plan, plan.turn.at(i, j, plan.terms), i, j)
    }

    // Element (i, j) of a folded plan's target, where the sum turns after k terms.
    pub fn turned_entry(&self, plan: Folded, k: usize, c: &mut [N::Cell], i: usize, j: usize)
        requires { CanRunFolded N.numbers plan self.now c.old × (i < plan.target.rows) × (j < plan.target.cols) × (k ≡ terms_before plan.turn i j) }
        ensures { c.new ≡ replaced (kind N.numbers) plan.target i j (folded_work N.numbers N.multipliers plan self.now i j) c.old }
    {
        self.settle(plan.target, c, i, j, self.turned_sum(plan, k, i, j));
    }

    // The same, with its turn found.
    pub fn folded_entry(&self, plan: Folded, c: &mut [N::Cell], i: usize, j: usize)
        requires { CanRunFolded N.numbers plan self.now c.old × (i < plan.target.rows) × (j < plan.target.cols) }
        ensures { c.new ≡ replaced (kind N.numbers) plan.target i j (folded_work N.numbers N.multipliers plan self.now i j) c.old }
    {
        self.turned_entry(plan, plan.turn.at(i, j, plan.terms), c, i, j);
    }
}
