//! Captures: a bench recorded in both directions, read from bytes that come in any pieces, and written. PROTOCOL 13.
#![tactic(auto)]

mod reading;
mod record;
mod writing;

pub use reading::{Cursor, Ending, NextError, Record, Refusal, Taken};
pub use record::{Direction, UnknownDirection, payload};
pub use writing::{write_head, write_record};
