// Replays the list of products: gemv, hemv, gemm, symm, hemm, syrk and herk, for each kind.

#![tactic(auto)]

mod complex;
mod real;

use anyhow::{Context, Result};
use recorded_calls::{Kind, Record};

fn main(rt: HostRuntime) -> Result<()> {
    let list = recorded_calls::open(&rt, b"product.bin").context("product.bin")?;
    list.replay(&rt, agrees)?;
    Ok(())
}

fn agrees(record: Record<'_>) -> bool {
    let target = record.target();
    match record.kind() {
        Some(Kind::F64) => record.agrees(target, |a, b, c| real::call::<f64>(record, a, b, c)),
        Some(Kind::F32) => record.agrees(target, |a, b, c| real::call::<f32>(record, a, b, c)),
        Some(Kind::Complex) => record.agrees(target, |a, b, c| complex::call(record, a, b, c)),
        Some(Kind::Views) | None => false,
    }
}
