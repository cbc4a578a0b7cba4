// The calls of triangle_real, for f64 and f32.
use kinds::Real;
use recorded_calls::{Cell, OfParts, Record, Routine};
use triangle_real::trmm::trmm;
use triangle_real::trmv::trmv;
use triangle_real::trsm::trsm;
use triangle_real::trsv::trsv;
use view::Answer;

// The call of a record, on its two slabs; none where the list has no such routine.
pub fn call<R: Real<Cell = R, Factor = R> + Cell + OfParts<R>>(
    record: Record<'_>,
    a: &[R],
    b: &mut [R],
) -> Option<Answer> {
    let (va, vb) = (record.view(0), record.view(1));
    let p: R = record.alpha();
    let side = record.side(0);
    let (u, u1) = (record.uplo(0), record.uplo(1));
    let (t, t2) = (record.trans(1), record.trans(2));
    let (d, d3) = (record.diag(2), record.diag(3));
    match record.routine().ok()? {
        Routine::Trmv => Some(trmv::<R>(u, t, d, a, va, b, vb)),
        Routine::Trsv => Some(trsv::<R>(u, t, d, a, va, b, vb)),
        Routine::Trmm => Some(trmm(side, u1, t2, d3, p, a, va, b, vb)),
        Routine::Trsm => Some(trsm(side, u1, t2, d3, p, a, va, b, vb)),
        _ => None,
    }
}
