// Replays the list of triangular routines: trmv, trsv, trmm and trsm, for each kind.

#![tactic(auto)]

mod complex;
mod real;

use anyhow::{Context, Result};
use recorded_calls::{Kind, Record};

fn main(rt: HostRuntime) -> Result<()> {
    let list = recorded_calls::open(&rt, b"triangle.bin").context("triangle.bin")?;
    list.replay(&rt, agrees)?;
    Ok(())
}

// The number of the target's view.
const TARGET: usize = 1;

fn agrees(record: Record<'_>) -> bool {
    match record.kind() {
        Some(Kind::F64) => record.agrees(TARGET, |a, _b, c| real::call::<f64>(record, a, c)),
        Some(Kind::F32) => record.agrees(TARGET, |a, _b, c| real::call::<f32>(record, a, c)),
        Some(Kind::Complex) => record.agrees(TARGET, |a, _b, c| complex::call(record, a, c)),
        Some(Kind::Views) | None => false,
    }
}
