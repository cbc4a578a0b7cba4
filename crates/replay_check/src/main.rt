// Replays the list of checks: the refusals 1 to 4 of the fifteen routines, by views and lengths alone.

#![tactic(auto)]

mod checks;

use anyhow::{Context, Result};
use recorded_calls::{Record, Routine};
use view::Answer;

fn main(rt: HostRuntime) -> Result<()> {
    let list = recorded_calls::open(&rt, b"check.bin").context("check.bin")?;
    list.replay(&rt, agrees)?;
    Ok(())
}

fn agrees(record: Record<'_>) -> bool {
    record.is_check() && record.has_answer(answer(record))
}

// The answer that the check of the record's routine gives.
fn answer(record: Record<'_>) -> Option<Answer> {
    let a = record.check_arg(0);
    let b = record.check_arg(1);
    let c = record.check_arg(2);
    let s = record.side(0);
    let t = record.trans(0);
    let u = record.trans(1);
    match record.routine().ok()? {
        Routine::Gemv => Some(checks::gemv(t, a, b, c)),
        Routine::Hemv => Some(checks::hemv(a, b, c)),
        Routine::Her => Some(checks::her(a, b)),
        Routine::Her2 => Some(checks::her2(a, b, c)),
        Routine::Trmv => Some(checks::trmv(a, b)),
        Routine::Trsv => Some(checks::trsv(a, b)),
        Routine::Gemm => Some(checks::gemm(t, u, a, b, c)),
        Routine::Symm => Some(checks::symm(s, a, b, c)),
        Routine::Hemm => Some(checks::hemm(s, a, b, c)),
        Routine::Syrk => Some(checks::syrk(u, a, b)),
        Routine::Herk => Some(checks::herk(u, a, b)),
        Routine::Syr2k => Some(checks::syr2k(u, a, b, c)),
        Routine::Her2k => Some(checks::her2k(u, a, b, c)),
        Routine::Trmm => Some(checks::trmm(s, a, b)),
        Routine::Trsm => Some(checks::trsm(s, a, b)),
        Routine::Card => None,
    }
}
