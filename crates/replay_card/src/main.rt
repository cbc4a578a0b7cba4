// Replays the list of card calls: cards that are read, and cards that are written, of both kinds.

#![tactic(auto)]

mod call;

use anyhow::{Context, Result};
use call::CardCall;

fn main(rt: HostRuntime) -> Result<()> {
    let list = recorded_calls::open(&rt, b"card.bin").context("card.bin")?;
    list.replay(&rt, |record| {
        CardCall::of(record.bytes).is_some_and(CardCall::agrees)
    })?;
    Ok(())
}
