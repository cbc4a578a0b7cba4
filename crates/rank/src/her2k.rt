// her2k.

ghost use Rattle.number.specs.Kind.{kind};
ghost use Rattle.slabs.specs.Elem.{lent};
ghost use Rattle.blas.specs.Outcome.{Gives};
ghost use Rattle.blas.specs.Her2k;

use crate::pairs::Paired;
use crate::weights::FactorsWeighed;
use call_check::check_her2k;
use call_check::quick::quick_syr2k;
use kinds::Number;
use rank_plan::her2k_plan;
use view::{Answer, Trans, UpLo, View};

// C ← alpha A Bᴴ + conj(alpha) B Aᴴ + beta C or alpha Aᴴ B + conj(alpha) Bᴴ A + beta C, in the named triangle, beta real
#[inline(always)]
pub fn her2k<N: Number>(
    uplo: UpLo,
    trans: Trans,
    alpha: N,
    a: &[N::Cell],
    va: View,
    b: &[N::Cell],
    vb: View,
    beta: N::Factor,
    c: &mut [N::Cell],
    vc: View,
) -> Answer
    ensures { let K = kind N.numbers in Gives K (Her2k.her2k K uplo trans alpha (lent K a.now va) (lent K b.now vb) beta (lent K c.old vc)) result c.new }
{
    let la = N::count(a);
    let lb = N::count(b);
    let lc = N::count(c);
    let quick = quick_syr2k(trans, va, la, vb, lb, vc, lc);
    let answer = check_her2k(quick, trans, va, la, vb, lb, vc, lc);
    if answer.passed() {
        let paired: Paired<N, FactorsWeighed<N>> = Paired {
            weigh: FactorsWeighed { alpha },
            beta: N::judged_real(beta),
            plan: her2k_plan(uplo, trans, va, vb, vc),
            a,
            b,
        };
        paired.update(c);
    }
    answer
}
