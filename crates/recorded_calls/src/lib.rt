// A list of recorded calls: its records, their fields, slabs and scalars, and the counts of the calls that agreed.

#![tactic(auto)]

mod cells;
mod file;
mod record;
mod routine;
mod tally;

pub use cells::{Cell, OfParts, fill, same};
pub use file::{LONGEST, List, next, open};
pub use record::{Arg, Record};
pub use routine::{Kind, Routine, UnknownNumber};
