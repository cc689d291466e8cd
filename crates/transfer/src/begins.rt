//! A 19 was received: the module announces a table. PROTOCOL 15.6.
ghost use Rattle.std.specs.Prelude.{◌≡◌, eqb, length, Some, IfOk};
ghost use Rattle.frame.specs.Wire.{frame_limit};
ghost use Rattle.link.specs.Sending.{first_number, max_repeats};
ghost use Rattle.link.specs.Table.{offer_row_of};
ghost use Rattle.transfer.specs.Table.{check_number};
ghost use Rattle.transfer.specs.Payloads.{faulty, size_in, announcement_of};
ghost use Rattle.transfer.specs.Checks.{first_refusal, size_tests, begin_tests};
ghost use Rattle.transfer.specs.Calls.{begun_of, begin_of};

use super::MAX_PIECES;
use super::announcements::{Announcement, announcement_of};
use super::answers::{Arrival, ArriveError, Denial, Refusal};
use super::state::{Open, Transfer};
use super::writes::{Pair, refuse, write_pair};
use link::{Link, OfferError};

impl Open {
    // Tests the sizes: EMPTY, TOOBIG, PIECES.
    fn check_sizes(self, room: usize) -> Result<(), Denial>
        ensures { check_number result ≡ first_refusal (size_tests self.size self.piece room) }
    {
        if self.size == 0 || self.piece == 0 {
            return Err(Denial::Refused(Refusal::Empty));
        }
        if room < self.size as usize {
            return Err(Denial::Refused(Refusal::TooBig));
        }
        if MAX_PIECES < self.pieces() {
            return Err(Denial::Refused(Refusal::Pieces));
        }
        Ok(())
    }
}

impl Transfer {
    // All tests, in the order of PROTOCOL 15.10, and what the 19 announces; `offer` is the link's answer to the 1B.
    fn check_begin(
        &self,
        link: &Link,
        offer: Result<u8, OfferError>,
        payload: &[u8],
        piece: u16,
        room: usize,
    ) -> Result<Announcement, Denial>
        ensures number { check_number result
            ≡ first_refusal (begin_tests first_number max_repeats self.now link.now
            (eqb (offer_row_of offer).number 41) (faulty 0x19 payload.now) (size_in payload.now)
            piece room) }
        ensures read { IfOk result (λ a. Some a ≡ announcement_of payload.now) }
    {
        if !self.is_in_range() || !link.is_in_range() {
            return Err(Denial::State);
        }
        let Some(announcement) = announcement_of(payload) else {
            return Err(Denial::Refused(Refusal::Size));
        };
        if matches!(offer, Err(OfferError::Busy)) {
            return Err(Denial::Busy);
        }
        Open::new(announcement.size, piece).check_sizes(room)?;
        Ok(announcement)
    }

    /// A 19 was received, under a number, with a payload: where it is accepted, 1A and 1B are at the front of the
    /// output. Of the buffer only the size matters.
    pub fn begin(
        &mut self,
        link: &mut Link,
        clock: u32,
        number: u8,
        payload: &[u8],
        piece: u16,
        buffer: &[u8],
        out: &mut [u8],
    ) -> Result<Arrival, ArriveError>
        ensures { begun_of result self.new link.new out.new
            ≡ begin_of frame_limit first_number max_repeats self.old link.old clock number
            payload.now piece (length buffer.now) out.old }
    {
        let mut next = *link;
        let offer = next.offer(0x1B, clock);
        let announcement = match self.check_begin(link, offer, payload, piece, buffer.len()) {
            Ok(announcement) => announcement,
            Err(denial) => return refuse(denial, number, out),
        };
        let code = message::part(payload, announcement.code);
        let Pair { count, ready } = write_pair(number, link.next, piece, code, out)?;
        self.open = Some(Open::new(announcement.size, piece));
        *link = next;
        Ok(Arrival::Began { count, ready })
    }
}
