//! A command is offered for sending: PROTOCOL 9.10, 9.11, 9.13.
ghost use Rattle.std.specs.Prelude.{◌≡◌};
ghost use Rattle.link.specs.Calls.{offer, offered_of};

use super::state::{Link, Waiting, following, may_wait};

/// Why a command is not accepted. The link stays as it was, and no number is used: PROTOCOL 9.2.
#[derive(Clone, Copy, Debug, PartialEq, Eq)]
pub enum OfferError {
    /// STATE 17: a field of the link is out of its range.
    State,
    /// UNSENT 42: not a command that may wait.
    Unsent,
    /// BUSY 41: another command still waits.
    Busy,
}

impl Link {
    /// Offers a command at a reading of the clock. Where it is accepted, the caller sends it under the number
    /// returned, and keeps the payload.
    pub fn offer(&mut self, command: u8, clock: u32) -> Result<u8, OfferError>
        ensures { offered_of result self.new ≡ offer self.old command clock }
    {
        if !self.is_in_range() {
            return Err(OfferError::State);
        }
        if !may_wait(command) {
            return Err(OfferError::Unsent);
        }
        if self.waiting.is_some() {
            return Err(OfferError::Busy);
        }
        let number = self.next;
        *self = Link {
            next: following(number),
            waiting: Some(Waiting {
                command,
                number,
                sent: clock,
                repeats: 0,
            }),
        };
        Ok(number)
    }
}
