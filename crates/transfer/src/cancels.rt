//! The box cancels: a 27 is offered to the link. PROTOCOL 15.9.
ghost use Rattle.std.specs.Prelude.{◌≡◌};
ghost use Rattle.frame.specs.Wire.{frame_limit};
ghost use Rattle.link.specs.Sending.{first_number, max_repeats};
ghost use Rattle.transfer.specs.Calls.{cancelled_of, cancel_of};

use super::answers::ArriveError;
use super::state::Transfer;
use super::writes::write_empty;
use link::{Link, OfferError};

impl Transfer {
    /// The box cancels, also where there is no transfer: where the link takes the 27, there is no transfer any more,
    /// and the 27 is at the front of the output; its size in bytes is returned. An offer of a 27 to the link itself
    /// drops nothing. It is never PAYLOAD.
    pub fn cancel(
        &mut self,
        link: &mut Link,
        clock: u32,
        out: &mut [u8],
    ) -> Result<usize, ArriveError>
        ensures { cancelled_of result self.new link.new out.new
            ≡ cancel_of frame_limit first_number max_repeats self.old link.old clock out.old }
    {
        if !self.is_in_range() || !link.is_in_range() {
            return Err(ArriveError::State);
        }
        let mut next = *link;
        if matches!(next.offer(0x27, clock), Err(OfferError::Busy)) {
            return Err(ArriveError::Busy);
        }
        let count = write_empty(0x27, link.next, out)?;
        self.open = None;
        *link = next;
        Ok(count)
    }
}
