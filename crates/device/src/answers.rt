//! The answer of the box to a frame. PROTOCOL 16.6.
ghost use Rattle.std.specs.Prelude.{◌≡◌, Ok, Err};
ghost use Rattle.base.specs.Writes.{unwritten_row_of};
ghost use Rattle.transfer.specs.Table.{arrive_row_of};
ghost use Rattle.device.specs.Table.{done_row_of, error_row_of, handle_row_of};

use base::WriteError;
use message::{Cause, Code};
use transfer::{Arrival, ArriveError, Refusal};

/// What the box did. `count` is the size of what was written.
#[derive(Clone, Copy, Debug, PartialEq, Eq)]
pub enum Handled {
    /// Nothing is written, and nothing is asked.
    Nothing,
    /// The caller is asked to send 02 under this number.
    InformationWanted {
        number: u8,
    },
    /// The caller is asked to send 04 under this number.
    StatusWanted {
        number: u8,
    },
    /// The command that acknowledges is written.
    Acknowledged {
        count: usize,
    },
    /// A 12 is written, to a frame that is not a 19, 1D or 1F.
    Rejected {
        count: usize,
        code: Code,
        cause: Cause,
    },
    /// A 19 is accepted: 1A and 1B are written, and the 1B begins at the place `ready` of the output.
    Began {
        count: usize,
        ready: usize,
    },
    /// A 1D is accepted, for the first time or again: 1E is written.
    Stored {
        count: usize,
    },
    /// A 1F is accepted: 20 is written.
    Stopped {
        count: usize,
    },
    /// A 12 with code 3 is written, to a 19, 1D or 1F.
    Refused {
        count: usize,
        refusal: Refusal,
    },
}

/// Why nothing was written. The transfer, the buffer and the output are as they were.
#[derive(Clone, Copy, Debug, PartialEq, Eq)]
pub enum HandleError {
    /// STATE 17: a field of the transfer or of the link is out of its range. The link is as it was, too.
    State,
    /// BUSY 41: a 19, and a command waits already.
    Busy,
    /// PAYLOAD 21: the 1B would have a payload longer than any frame's. ROOM 22: the output is too small for what would
    /// be written, both frames of a pair together.
    Unwritten(WriteError),
}

/// The answer to a 19, 1D or 1F.
impl From<Arrival> for Handled {
    ghost from_gives = { λ arrival handled. done_row_of handled ≡ arrive_row_of (Ok arrival) };

    fn from(arrival: Arrival) -> Handled {
        match arrival {
            Arrival::Began { count, ready } => Handled::Began { count, ready },
            Arrival::Stored { count } => Handled::Stored { count },
            Arrival::Stopped { count } => Handled::Stopped { count },
            Arrival::Refused { count, refusal } => Handled::Refused { count, refusal },
        }
    }
}

impl From<ArriveError> for HandleError {
    ghost from_gives = { λ error why. error_row_of why ≡ arrive_row_of (Err error) };

    fn from(error: ArriveError) -> HandleError {
        match error {
            ArriveError::State => HandleError::State,
            ArriveError::Busy => HandleError::Busy,
            ArriveError::Unwritten(why) => HandleError::Unwritten(why),
        }
    }
}

impl From<WriteError> for HandleError {
    ghost from_gives = { λ error why. error_row_of why ≡ unwritten_row_of error };

    fn from(error: WriteError) -> HandleError {
        HandleError::Unwritten(error)
    }
}
