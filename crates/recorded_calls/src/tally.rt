// How many calls of each routine, cards as the sixteenth, and kind were made, and how many agreed.
use crate::record::Record;
use crate::routine::{Kind, Routine};
use std::io;

#[derive(Clone, Copy, Default)]
struct Count {
    calls: u64,
    agreed: u64,
}

// The counts of each routine, one for each kind.
#[derive(Drop)]
pub(crate) struct Tally {
    counts: [Count; 64],
}

impl Count {
    fn plus(self, calls: u64, agreed: u64) -> Count {
        Count {
            calls: self.calls.saturating_add(calls),
            agreed: self.agreed.saturating_add(agreed),
        }
    }
}

impl Tally {
    pub(crate) fn new() -> Tally {
        Tally {
            counts: [Count::default(); 64],
        }
    }

    // One more call, the record's.
    pub(crate) fn count(&mut self, record: Record<'_>, agrees: bool) {
        if let Some(count) = self.counts.get_mut(record.slot()) {
            *count = count.plus(1, u64::from(agrees));
        }
    }

    fn of(&self, routine: Routine, kind: Kind) -> Count {
        let at = 4 * routine as usize + kind as usize;
        self.counts[at]
    }

    fn total(&self) -> Count {
        self.counts
            .iter()
            .fold(Count::default(), |t, n| t.plus(n.calls, n.agreed))
    }

    // A line for each routine and kind that were called, then the list's records and how many of them agreed.
    pub(crate) fn report(&self, rt: &impl Print, records: u64) -> io::Result<()> {
        for routine in (0..16).filter_map(|n| Routine::try_from(n).ok()) {
            self.report_routine(rt, routine)?;
        }
        let all = self.total();
        println!(rt;
            "total: {records} records, {} calls, {} agreed",
            all.calls, all.agreed
        )
    }

    fn report_routine(&self, rt: &impl Print, routine: Routine) -> io::Result<()> {
        for kind in [Kind::F64, Kind::F32, Kind::Complex, Kind::Views] {
            let count = self.of(routine, kind);
            if 0 < count.calls {
                println!(rt;
                    "{routine} {kind}: {} calls, {} agreed",
                    count.calls, count.agreed
                )?;
            }
        }
        Ok(())
    }
}
