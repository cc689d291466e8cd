//! The record of a link: the next sequence number, and the command that waits.
ghost use Rattle.std.specs.Prelude.{◌≡◌};
ghost use Rattle.link.specs.Sending.{first_number, max_repeats, may_wait, fits_of};
ghost use Rattle.link.specs.Calls.{fresh_of, in_range, following_of};

use super::{FIRST_NUMBER, MAX_REPEATS};

/// A link; a box has one for its whole life. Any values may be given: calls of a link that is not in range answer
/// STATE. PROTOCOL 9.14, 9.15.
#[derive(Clone, Copy, Debug, PartialEq, Eq)]
pub struct Link {
    /// The sequence number of the next command.
    pub next: u8,
    /// The command that waits for its reply.
    pub waiting: Option<Waiting>,
}

/// A command that waits for its reply.
#[derive(Clone, Copy, Debug, PartialEq, Eq)]
pub struct Waiting {
    /// The command, one of the nine of PROTOCOL 9.1.
    pub command: u8,
    /// The sequence number under which it was sent.
    pub number: u8,
    /// The clock at its last sending, in milliseconds.
    pub sent: u32,
    /// Its repeats so far, 2 at most.
    pub repeats: u8,
}

impl Waiting {
    // Whether a received frame is the module's reply: its command is the next, its number the same. PROTOCOL 9.9
    pub(crate) fn fits(self, command: u8, number: u8) -> bool
        ensures { result ≡ fits_of command number self.command self.number }
    {
        u16::from(command) == u16::from(self.command) + 1 && number == self.number
    }
}

impl Link {
    /// A fresh link: nothing waits, and the next number is the first. PROTOCOL 9.2.
    pub fn new() -> Self
        ensures { result ≡ fresh_of first_number }
    {
        Link {
            next: FIRST_NUMBER,
            waiting: None,
        }
    }

    /// Whether each field is in its range, as every number and clock is: PROTOCOL 9.15.
    pub fn is_in_range(&self) -> bool
        ensures { result ≡ in_range first_number max_repeats self.now }
    {
        self.waiting.is_none_or(|wait| wait.repeats <= MAX_REPEATS && may_wait(wait.command))
    }
}

// Whether a command is one of those that wait for a reply: PROTOCOL 9.1.
#[tactic(auto, unfolding(base::specs::Keys::among))]
pub(crate) fn may_wait(command: u8) -> bool
    ensures { result ≡ may_wait command }
{
    matches!(
        command,
        0x05 | 0x09 | 0x0B | 0x13 | 0x15 | 0x17 | 0x1B | 0x27 | 0x29
    )
}

// The sequence number that follows another: PROTOCOL 9.2.
pub(crate) fn following(number: u8) -> u8
    ensures { result ≡ following_of first_number number }
{
    number.checked_add(1).unwrap_or(FIRST_NUMBER)
}
