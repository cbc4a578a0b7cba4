// syr2k.

ghost use Rattle.number.specs.Kind.{kind};
ghost use Rattle.slabs.specs.Elem.{lent};
ghost use Rattle.blas.specs.Outcome.{Gives};
ghost use Rattle.blas.specs.Syr2k;

use crate::pairs::Paired;
use crate::weights::SumWeighed;
use call_check::check_syr2k;
use call_check::quick::quick_syr2k;
use kinds::Number;
use rank_plan::syr2k_plan;
use view::{Answer, Trans, UpLo, View};

// C ← alpha A Bᵀ + alpha B Aᵀ + beta C or alpha Aᵀ B + alpha Bᵀ A + beta C, in the named triangle
#[inline(always)]
pub fn syr2k<N: Number>(
    uplo: UpLo,
    trans: Trans,
    alpha: N,
    a: &[N::Cell],
    va: View,
    b: &[N::Cell],
    vb: View,
    beta: N,
    c: &mut [N::Cell],
    vc: View,
) -> Answer
    ensures { let K = kind N.numbers in Gives K (Syr2k.syr2k K uplo trans alpha (lent K a.now va) (lent K b.now vb) beta (lent K c.old vc)) result c.new }
{
    let la = N::count(a);
    let lb = N::count(b);
    let lc = N::count(c);
    let quick = quick_syr2k(trans, va, la, vb, lb, vc, lc);
    let answer = check_syr2k(quick, trans, va, la, vb, lb, vc, lc);
    if answer.passed() {
        let paired: Paired<N, SumWeighed<N>> = Paired {
            weigh: SumWeighed { alpha },
            beta: beta.judged(),
            plan: syr2k_plan(uplo, trans, va, vb, vc),
            a,
            b,
        };
        paired.update(c);
    }
    answer
}
