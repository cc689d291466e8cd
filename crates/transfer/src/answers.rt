//! The answers to a received 19, 1D or 1F, and to a cancel. PROTOCOL 15.9 to 15.12.
ghost use Rattle.std.specs.Prelude.{◌≡◌};
ghost use Rattle.transfer.specs.Table.{refusal_number};
ghost use Rattle.transfer.specs.declared.answers.ArriveError.TheVariants as arrive_error;

use base::WriteError;

/// Why a received 19, 1D or 1F is refused with a 12. PROTOCOL 15.10.
#[derive(Clone, Copy, Debug, PartialEq, Eq)]
pub enum Refusal {
    /// The payload has not the size that its command asks for.
    Size,
    /// No bytes are announced, or the piece size is 0.
    Empty,
    /// The table is larger than the buffer.
    TooBig,
    /// The piece is a line of a hex file.
    HexLines,
    /// More pieces than a transfer may have, or another total than the transfer's.
    Pieces,
    /// Neither the next piece nor the one just stored; or there is no transfer.
    Turn,
    /// The piece has a wrong size, or it was just stored with other bytes.
    Piece,
}

/// The answer to a received 19, 1D or 1F. `count` is the size in bytes of what was written.
#[derive(Clone, Copy, Debug, PartialEq, Eq)]
pub enum Arrival {
    /// A 19 is accepted: 1A and 1B are written, and the 1B begins at the place `ready` of the output.
    Began { count: usize, ready: usize },
    /// A 1D is accepted, for the first time or again: 1E is written.
    Stored { count: usize },
    /// A 1F is accepted: 20 is written.
    Stopped { count: usize },
    /// A 12 with code 3 is written; transfer, link and buffer are as they were.
    Refused { count: usize, refusal: Refusal },
}

/// Why a call did nothing: transfer, link, buffer and output are as they were.
#[derive(Clone, Copy, Debug, PartialEq, Eq)]
pub enum ArriveError {
    /// STATE 17: a field of the transfer or of the link is out of its range.
    State,
    /// BUSY 41: a command waits already.
    Busy,
    /// PAYLOAD 21: the 1B would have a payload longer than any frame's. ROOM 22: the output is too small for what would
    /// be written, both frames of a pair together.
    Unwritten(WriteError),
}

impl From<WriteError> for ArriveError {
    ghost from_gives = { λ why e. e ≡ arrive_error.Unwritten why };

    fn from(why: WriteError) -> ArriveError {
        ArriveError::Unwritten(why)
    }
}

impl Refusal {
    /// The number of a refusal: PROTOCOL 15.11.
    // A method, and no `From`: the number is the answer's in the table, and no value that another type would take.
    pub fn number(self) -> u8
        ensures { result ≡ refusal_number self }
    {
        match self {
            Refusal::Size => 32,
            Refusal::Empty => 61,
            Refusal::TooBig => 62,
            Refusal::HexLines => 64,
            Refusal::Pieces => 63,
            Refusal::Turn => 65,
            Refusal::Piece => 66,
        }
    }
}

// Why the tests of a call refuse it, before anything is written.
#[derive(Clone, Copy, Debug, PartialEq, Eq)]
pub(crate) enum Denial {
    State,
    Busy,
    Refused(Refusal),
}
