// The calls of triangle_complex. They are other functions than those of triangle_real, so this list of them stands beside that one.
use kinds::Complex;
use recorded_calls::{Record, Routine};
use triangle_complex::trmm::trmm;
use triangle_complex::trmv::trmv;
use triangle_complex::trsm::trsm;
use triangle_complex::trsv::trsv;
use view::Answer;

// The call of a record, on its two slabs; none where the list has no such routine.
pub fn call(record: Record<'_>, a: &[f64], b: &mut [f64]) -> Option<Answer> {
    let (va, vb) = (record.view(0), record.view(1));
    let p: Complex = record.alpha();
    let side = record.side(0);
    let (u, u1) = (record.uplo(0), record.uplo(1));
    let (t, t2) = (record.trans(1), record.trans(2));
    let (d, d3) = (record.diag(2), record.diag(3));
    match record.routine().ok()? {
        Routine::Trmv => Some(trmv(u, t, d, a, va, b, vb)),
        Routine::Trsv => Some(trsv(u, t, d, a, va, b, vb)),
        Routine::Trmm => Some(trmm(side, u1, t2, d3, p, a, va, b, vb)),
        Routine::Trsm => Some(trsm(side, u1, t2, d3, p, a, va, b, vb)),
        _ => None,
    }
}
