// Replays the list of rank updates: her, her2, syr2k and her2k, for each kind.

#![tactic(auto)]

use anyhow::{Context, Result};
use kinds::{Complex, Number};
use rank::her::her;
use rank::her2::her2;
use rank::her2k::her2k;
use rank::syr2k::syr2k;
use recorded_calls::{Cell, Kind, OfParts, Record, Routine};
use view::Answer;

fn main(rt: HostRuntime) -> Result<()> {
    let list = recorded_calls::open(&rt, b"rank.bin").context("rank.bin")?;
    list.replay(&rt, agrees)?;
    Ok(())
}

fn agrees(record: Record<'_>) -> bool {
    let target = record.target();
    match record.kind() {
        Some(Kind::F64) => record.agrees(target, |a, b, c| call::<f64, f64>(record, a, b, c)),
        Some(Kind::F32) => record.agrees(target, |a, b, c| call::<f32, f32>(record, a, b, c)),
        Some(Kind::Complex) => record.agrees(
            target,
            |a, b, c| call::<f64, Complex>(record, a, b, c),
        ),
        Some(Kind::Views) | None => false,
    }
}

// The call of a record, on the first two slabs and the target's; none where the list has no such routine.
fn call<T: Cell, N: Number<Cell = T, Factor = T> + OfParts<T>>(
    record: Record<'_>,
    a: &[T],
    b: &[T],
    c: &mut [T],
) -> Option<Answer> {
    let alpha: N = record.alpha();
    let u = record.uplo(0);
    let t = record.trans(1);
    let va = record.view(0);
    let vb = record.view(1);
    let vc = record.view(record.target());
    match record.routine().ok()? {
        Routine::Her => Some(her::<N>(u, record.scalar(0), a, va, c, vc)),
        Routine::Her2 => Some(her2(u, alpha, a, va, b, vb, c, vc)),
        Routine::Syr2k => Some(syr2k(u, t, alpha, a, va, b, vb, record.beta(), c, vc)),
        Routine::Her2k => Some(her2k(u, t, alpha, a, va, b, vb, record.scalar(2), c, vc)),
        _ => None,
    }
}
