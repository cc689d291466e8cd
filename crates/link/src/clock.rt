//! The clock. No two readings are compared by size, only elapsed times with bounds: PROTOCOL 9.3.
ghost use Rattle.std.specs.Prelude.{◌≡◌};
ghost use Rattle.link.specs.Clock.{elapsed_of, is_due};

use super::{HALF_CLOCK, TIMEOUT_MS};

/// Milliseconds from an earlier reading of the clock to this one, over a wrap too.
pub fn elapsed(clock: u32, since: u32) -> u32
    ensures { result ≡ elapsed_of clock since }
{
    clock.wrapping_sub(since)
}

/// Whether a tick is due at a reading of the clock, after a sending at another. A clock that was set back
/// is never due. PROTOCOL 9.4.
pub fn is_due(clock: u32, sent: u32) -> bool
    ensures { result ≡ is_due clock sent }
{
    (TIMEOUT_MS..HALF_CLOCK).contains(&elapsed(clock, sent))
}
