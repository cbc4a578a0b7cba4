// The rank-2k updates: sums of pairs of products, side by side, and the target's elements settled from them.

ghost use Rattle.std.specs.Prelude.{◌≡◌, ◌<◌, ◌≤◌, ◌+◌};
ghost use Rattle.number.specs.Kind.{kind};
ghost use Rattle.number.specs.Scaling.{scale_by};
ghost use Rattle.view.specs.Triangle.{in_triangle};
ghost use Rattle.slabs.specs.Elem.{Within};
ghost use Rattle.slabs.specs.Eight.{lane, Lanes, Block};
ghost use Rattle.slabs.specs.Update.{replaced, span, update_row, update};
ghost use Rattle.rank_plan.specs.Change.{left_matrix_a, left_matrix_b, pair_at, pairs_at, paired_change};
ghost use Rattle.rank_plan.specs.Ready.{Factors, SquareWithin};

use crate::weights::Weigh;
use kinds::{Beta, Number};
use rank_plan::Plan;
use slabs::{block_end, block_start, elem_conj, place, plus_conj_lanes, zeros};
use view::View;

// An update by two matrices, which have what the plan reads of them.
#[derive(Drop)]
pub(crate) struct Paired<'a, N: Number, W: Weigh<N>> {
    pub weigh: W,
    pub beta: Beta<N::Multiplier>,
    pub plan: Plan,
    pub a: &'a [N::Cell],
    pub b: &'a [N::Cell],
    ghost factors: { Factors plan (N.numbers.count a.now) (N.numbers.count b.now) },
}

// Each is put into its caller: else the plan is read from memory for every element.
impl<'a, N: Number, W: Weigh<N>> Paired<'a, N, W> {
    // The left factors at p, weighed.
    #[inline(always)]
    fn left_a(&self, i: usize, p: usize) -> N
        requires row { i < self.now.plan.target.rows }
        requires term { p < self.now.plan.terms }
        ensures { result ≡ (W.weights self.now.weigh).left_a (left_matrix_a (kind N.numbers) self.now.plan self.now.a.now self.now.b.now i p) }
    {
        let plan = self.plan;
        self.weigh
            .left_a(elem_conj(plan.left_conj, self.a, plan.left_a, i, p))
    }

    #[inline(always)]
    fn left_b(&self, i: usize, p: usize) -> N
        requires row { i < self.now.plan.target.rows }
        requires term { p < self.now.plan.terms }
        ensures { result ≡ (W.weights self.now.weigh).left_b (left_matrix_b (kind N.numbers) self.now.plan self.now.a.now self.now.b.now i p) }
    {
        let plan = self.plan;
        self.weigh
            .left_b(elem_conj(plan.left_conj, self.b, plan.left_b, i, p))
    }

    // A sum, with the two products at p added one after the other.
    #[inline(always)]
    fn add_pair(&self, p: usize, i: usize, j: usize, sum: N) -> N
        requires row { i < self.now.plan.target.rows }
        requires col { j < self.now.plan.target.cols }
        requires term { p < self.now.plan.terms }
        ensures { result ≡ pair_at (kind N.numbers) self.now.plan self.now.a.now self.now.b.now (W.weights self.now.weigh) i j p sum }
    {
        let plan = self.plan;
        let x = self.left_a(i, p);
        let y = self.left_b(i, p);
        let first = x.mul(elem_conj(plan.right_conj, self.b, plan.right_b, p, j));
        let second = y.mul(elem_conj(plan.right_conj, self.a, plan.right_a, p, j));
        sum.add(first).add(second)
    }

    // The sum of all pairs of products for element (i, j). As an array of one, complex sums took half as long again.
    #[inline(always)]
    fn pair_sum(&self, i: usize, j: usize) -> N
        requires row { i < self.now.plan.target.rows }
        requires col { j < self.now.plan.target.cols }
        ensures { result ≡ pairs_at (kind N.numbers) self.now.plan self.now.a.now self.now.b.now (W.weights self.now.weigh) i j self.now.plan.terms }
    {
        let mut sum = N::zero();
        for p in 0..self.plan.terms {
            sum = self.add_pair(p, i, j, sum);
        }
        sum
    }

    // The same side by side: each of L sums, those of row i from column j on, with its two products at p added.
    #[inline(always)]
    fn add_pairs<const L: usize>(&self, p: usize, i: usize, j: usize, sums: [N; L]) -> [N; L]
        requires row { i < self.now.plan.target.rows }
        requires cols { j + L ≤ self.now.plan.target.cols }
        requires term { p < self.now.plan.terms }
        ensures { Lanes (kind N.numbers) L result (λ t. pair_at (kind N.numbers) self.now.plan self.now.a.now self.now.b.now (W.weights self.now.weigh) i (j + t) p (lane (kind N.numbers) sums t)) }
    {
        let plan = self.plan;
        let x = self.left_a(i, p);
        let y = self.left_b(i, p);
        let first = plus_conj_lanes(x, plan.right_conj, self.b, plan.right_b, p, j, sums);
        plus_conj_lanes(y, plan.right_conj, self.a, plan.right_a, p, j, first)
    }

    // The sums of all pairs of products, for the elements of row i from column j on.
    #[inline(always)]
    fn pair_sums<const L: usize>(&self, i: usize, j: usize) -> [N; L]
        requires row { i < self.now.plan.target.rows }
        requires cols { j + L ≤ self.now.plan.target.cols }
        ensures { Lanes (kind N.numbers) L result (λ t. pairs_at (kind N.numbers) self.now.plan self.now.a.now self.now.b.now (W.weights self.now.weigh) i (j + t) self.now.plan.terms) }
    {
        let mut sums = zeros();
        for p in 0..self.plan.terms {
            sums = self.add_pairs(p, i, j, sums);
        }
        sums
    }

    // Element (i, j) of the target becomes what beta makes of it, plus the sum of its pairs, weighed.
    #[inline(always)]
    fn settle(&self, sum: N, c: &mut [N::Cell], i: usize, j: usize)
        requires { Within self.now.plan.target (N.numbers.count c.old) i j }
        ensures { c.new ≡ replaced (kind N.numbers) self.now.plan.target i j (λ old. N.numbers.add (scale_by N.numbers N.multipliers self.now.beta old) ((W.weights self.now.weigh).sum sum)) c.old }
    {
        let k = place::<N>(c, self.plan.target, i, j);
        let old = N::get(c, k).scaled(self.beta);
        N::put(c, k, old.add(self.weigh.sum(sum)));
    }

    // Columns first to before end of row i of the target, which are among the L columns from `from` on.
    #[inline(always)]
    fn block<const L: usize>(
        &self,
        c: &mut [N::Cell],
        i: usize,
        from: usize,
        first: usize,
        end: usize,
    )
        requires square { SquareWithin self.now.plan.target (N.numbers.count c.old) }
        requires row { i < self.now.plan.target.rows }
        requires block { Block L from first end self.now.plan.target.cols }
        ensures { c.new ≡ span (kind N.numbers) self.now.plan.target (paired_change (kind N.numbers) self.now.plan self.now.a.now self.now.b.now (W.weights self.now.weigh) (scale_by N.numbers N.multipliers self.now.beta)) i first end c.old }
    {
        let sums: [N; L] = self.pair_sums(i, from);
        for j in first..end {
            self.settle(sums[j - from], c, i, j);
        }
    }

    // Row i of a target of at least L columns, block after block.
    #[inline(always)]
    fn wide_row<const L: usize>(&self, c: &mut [N::Cell], i: usize)
        requires square { SquareWithin self.now.plan.target (N.numbers.count c.old) }
        requires row { i < self.now.plan.target.rows }
        requires some { 0 < L }
        requires wide { L ≤ self.now.plan.target.cols }
        ensures { c.new ≡ update_row (kind N.numbers) self.now.plan.target (in_triangle self.now.plan.uplo) (paired_change (kind N.numbers) self.now.plan self.now.a.now self.now.b.now (W.weights self.now.weigh) (scale_by N.numbers N.multipliers self.now.beta)) i self.now.plan.target.cols c.old }
    {
        let n = self.plan.target.cols;
        let end = self.plan.uplo.end_col(i, n);
        let first = self.plan.uplo.first_col(i);
        for j in (first..end).step_by(L) {
            let from = block_start(L, j, n);
            let stop = block_end(L, from, end);
            self.block::<L>(c, i, from, j, stop);
        }
    }

    // Row i of any target, column after column.
    #[inline(always)]
    fn narrow_row(&self, c: &mut [N::Cell], i: usize)
        requires square { SquareWithin self.now.plan.target (N.numbers.count c.old) }
        requires row { i < self.now.plan.target.rows }
        ensures { c.new ≡ update_row (kind N.numbers) self.now.plan.target (in_triangle self.now.plan.uplo) (paired_change (kind N.numbers) self.now.plan self.now.a.now self.now.b.now (W.weights self.now.weigh) (scale_by N.numbers N.multipliers self.now.beta)) i self.now.plan.target.cols c.old }
    {
        let end = self.plan.uplo.end_col(i, self.plan.target.cols);
        for j in self.plan.uplo.first_col(i)..end {
            self.settle(self.pair_sum(i, j), c, i, j);
        }
    }

    // The whole target, its rows L columns at a time where they are at least FROM and there are TERMS terms or more. Without terms
    // each sum is zero: column after column, it is weighed once for all.
    #[inline(always)]
    fn rows<const L: usize, const FROM: usize, const TERMS: usize>(&self, c: &mut [N::Cell])
        requires square { SquareWithin self.now.plan.target (N.numbers.count c.old) }
        requires some { 0 < L }
        requires wide { L ≤ FROM }
        ensures { c.new ≡ update (kind N.numbers) self.now.plan.target (in_triangle self.now.plan.uplo) (paired_change (kind N.numbers) self.now.plan self.now.a.now self.now.b.now (W.weights self.now.weigh) (scale_by N.numbers N.multipliers self.now.beta)) c.old }
    {
        for i in 0..self.plan.target.rows {
            if FROM <= self.plan.target.cols && TERMS <= self.plan.terms {
                self.wide_row::<L>(c, i);
            } else {
                self.narrow_row(c, i);
            }
        }
    }

    // The whole target. A const argument has to be a number, and four complex sums gain only from sixteen columns and two terms on.
    #[inline(always)]
    pub(crate) fn update(&self, c: &mut [N::Cell])
        requires { SquareWithin self.now.plan.target (N.numbers.count c.old) }
        ensures { c.new ≡ update (kind N.numbers) self.now.plan.target (in_triangle self.now.plan.uplo) (paired_change (kind N.numbers) self.now.plan self.now.a.now self.now.b.now (W.weights self.now.weigh) (scale_by N.numbers N.multipliers self.now.beta)) c.old }
    {
        if N::LANES == 4 {
            self.rows::<4, 16, 2>(c);
        } else {
            self.rows::<8, 8, 1>(c);
        }
    }
}
