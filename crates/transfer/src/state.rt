//! The transfer record, its ranges, and how far it is. PROTOCOL 15.3, 15.14.
ghost use Rattle.std.specs.Prelude.{◌≡◌, Some};
ghost use Rattle.transfer.specs.Table.{progress_row_of};
ghost use Rattle.transfer.specs.Checks.{open_in_range, in_range_of};
ghost use Rattle.transfer.specs.Calls.{progress_of};
ghost use Rattle.transfer.specs.Transfers.{absent};

use super::MAX_PIECES;
use base::StateError;

/// A table that is being received: of `size` bytes in pieces of `piece` bytes, of which the first `stored` pieces are
/// in the buffer.
#[derive(Clone, Copy, Debug, PartialEq, Eq)]
pub struct Open {
    pub size: u32,
    pub piece: u16,
    pub stored: u16,
}

/// A transfer; a box has one for its whole life. `None` is no table.
#[derive(Clone, Copy, Debug, PartialEq, Eq)]
pub struct Transfer {
    pub open: Option<Open>,
}

/// How far a transfer is: the bytes stored, and the bytes announced.
#[derive(Clone, Copy, Debug, PartialEq, Eq)]
pub struct Progress {
    pub stored: u32,
    pub size: u32,
}

impl Open {
    // A table of which nothing is stored yet.
    pub(crate) fn new(size: u32, piece: u16) -> Self
        ensures { result ≡ record { size = size; piece = piece; stored = 0 } }
    {
        Open {
            size,
            piece,
            stored: 0,
        }
    }

    // Whether each field is in its range. A size of 0 has no pieces, and a piece of 0 would be divided by.
    fn is_in_range(self) -> bool
        ensures { result ≡ open_in_range (Some self) }
    {
        if self.size == 0 || self.piece == 0 {
            return false;
        }
        let pieces = self.pieces();
        pieces <= MAX_PIECES && u32::from(self.stored) <= pieces
    }
}

impl Transfer {
    /// A fresh transfer: none.
    pub fn new() -> Self
        ensures { result ≡ absent }
    {
        Transfer { open: None }
    }

    /// Whether each field is in its range: PROTOCOL 15.14.
    pub fn is_in_range(&self) -> bool
        ensures { result ≡ in_range_of self.now }
    {
        self.open.is_none_or(|open| open.is_in_range())
    }

    /// How far a transfer is: `None` where there is no table. PROTOCOL 15.12. STATE where a field is out of its range.
    pub fn progress(&self) -> Result<Option<Progress>, StateError>
        ensures { progress_row_of result ≡ progress_of self.now }
    {
        if !self.is_in_range() {
            return Err(StateError);
        }
        Ok(
            self.open.map(|open| Progress {
                stored: open.bytes_of(open.stored),
                size: open.size,
            }),
        )
    }
}
