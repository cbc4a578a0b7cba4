// The calls of product_real, for f64 and f32.
use kinds::Real;
use product_real::gemm::gemm;
use product_real::gemv::gemv;
use product_real::hemm::hemm;
use product_real::hemv::hemv;
use product_real::herk::herk;
use product_real::symm::symm;
use product_real::syrk::syrk;
use recorded_calls::{Cell, OfParts, Record, Routine};
use view::Answer;

// The call of a record, on the first two slabs and the target's; none where the list has no such routine.
pub fn call<R: Real<Cell = R, Factor = R> + Cell + OfParts<R>>(
    record: Record<'_>,
    a: &[R],
    b: &[R],
    c: &mut [R],
) -> Option<Answer> {
    let p: R = record.alpha();
    let q: R = record.beta();
    let va = record.view(0);
    let vb = record.view(1);
    let vc = record.view(record.target());
    let side = record.side(0);
    let (t, t1) = (record.trans(0), record.trans(1));
    let (u, u1) = (record.uplo(0), record.uplo(1));
    match record.routine().ok()? {
        Routine::Gemv => Some(gemv(t, p, a, va, b, vb, q, c, vc)),
        Routine::Hemv => Some(hemv(u, p, a, va, b, vb, q, c, vc)),
        Routine::Gemm => Some(gemm(t, t1, p, a, va, b, vb, q, c, vc)),
        Routine::Symm => Some(symm(side, u1, p, a, va, b, vb, q, c, vc)),
        Routine::Hemm => Some(hemm(side, u1, p, a, va, b, vb, q, c, vc)),
        Routine::Syrk => Some(syrk(u, t1, p, a, va, q, c, vc)),
        Routine::Herk => Some(herk::<R>(u, t1, p, a, va, q, c, vc)),
        _ => None,
    }
}
