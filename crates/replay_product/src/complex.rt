// The calls of product_complex. They are other functions than those of product_real, so this list of them stands beside that one.
use kinds::Complex;
use product_complex::gemm::gemm;
use product_complex::gemv::gemv;
use product_complex::hemm::hemm;
use product_complex::hemv::hemv;
use product_complex::herk::herk;
use product_complex::symm::symm;
use product_complex::syrk::syrk;
use recorded_calls::{Record, Routine};
use view::Answer;

// The call of a record, on the first two slabs and the target's; none where the list has no such routine.
pub fn call(record: Record<'_>, a: &[f64], b: &[f64], c: &mut [f64]) -> Option<Answer> {
    let p: Complex = record.alpha();
    let q: Complex = record.beta();
    let va = record.view(0);
    let vb = record.view(1);
    let vc = record.view(record.target());
    let side = record.side(0);
    let (t, t1) = (record.trans(0), record.trans(1));
    let (u, u1) = (record.uplo(0), record.uplo(1));
    match record.routine().ok()? {
        Routine::Gemv => Some(gemv(t, p, a, va, b, vb, q, c, vc)),
        Routine::Hemv => Some(hemv(u, p, a, va, b, vb, q, c, vc)),
        Routine::Gemm => Some(gemm(t, t1, p, a, va, b, vb, q, c, vc)),
        Routine::Symm => Some(symm(side, u1, p, a, va, b, vb, q, c, vc)),
        Routine::Hemm => Some(hemm(side, u1, p, a, va, b, vb, q, c, vc)),
        Routine::Syrk => Some(syrk(u, t1, p, a, va, q, c, vc)),
        Routine::Herk => Some(herk(u, t1, record.scalar(0), a, va, record.scalar(2), c, vc)),
        _ => None,
    }
}
