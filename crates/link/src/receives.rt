//! A frame is received: it may be the module's reply to the command that waits. PROTOCOL 9.9, 9.12.
ghost use Rattle.std.specs.Prelude.{◌≡◌};
ghost use Rattle.link.specs.Calls.{receive, received_of};

use super::state::Link;

/// The command that a received frame replies to: it waited under this number, and waits no longer.
#[derive(Clone, Copy, Debug, PartialEq, Eq)]
pub struct Replied {
    pub command: u8,
    pub number: u8,
}

/// Why a received frame ends no wait. The link stays as it was.
#[derive(Clone, Copy, Debug, PartialEq, Eq)]
pub enum ReceiveError {
    /// STATE 17: a field of the link is out of its range.
    State,
    /// STRAY 43: the frame does not fit.
    Stray,
}

impl Link {
    /// A frame of the module was received, with this command and number; its payload is not looked at.
    pub fn receive(&mut self, command: u8, number: u8) -> Result<Replied, ReceiveError>
        ensures { received_of result self.new ≡ receive self.old command number }
    {
        if !self.is_in_range() {
            return Err(ReceiveError::State);
        }
        match self.waiting {
            Some(waiting) if waiting.fits(command, number) => {
                self.waiting = None;
                Ok(Replied {
                    command: waiting.command,
                    number: waiting.number,
                })
            }
            _ => Err(ReceiveError::Stray),
        }
    }
}
