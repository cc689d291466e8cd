//! The link: when the box sends a command, under which sequence number, when again, and when no more. PROTOCOL 9.
#![tactic(auto)]

mod clock;
mod offers;
mod receives;
mod state;
mod ticks;

/// The sequence number of a fresh link's first command, and the next after 255: PROTOCOL 9.2.
pub const FIRST_NUMBER: u8 = 0;

/// The repeats that a command gets at most, after its first sending: PROTOCOL 9.6.
pub const MAX_REPEATS: u8 = 2;

/// Milliseconds from a sending until a tick is due: PROTOCOL 9.4.
pub const TIMEOUT_MS: u32 = 200;

/// Half the clock's range: an elapsed time from here on means a clock that was set back. PROTOCOL 9.4.
pub const HALF_CLOCK: u32 = 0x8000_0000;

pub use clock::{elapsed, is_due};
pub use offers::OfferError;
pub use receives::{ReceiveError, Replied};
pub use state::{Link, Waiting};
pub use ticks::Tick;
