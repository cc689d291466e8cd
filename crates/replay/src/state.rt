//! The state of a replay: how far the capture is read, and a reader for each direction. PROTOCOL 14.1, 14.6.
ghost use Rattle.std.specs.Prelude.{◌≡◌};
ghost use Rattle.frame.specs.Wire.{frame_limit};
ghost use Rattle.replay.specs.State.{state_of, fresh_of, in_range_of};

use capture::Cursor;
use frame::Reader;

/// A replay of a capture. Any value may be given; one out of range is refused.
#[derive(Clone, Copy, Debug, PartialEq, Eq)]
pub struct Replay {
    /// How far the capture is read.
    pub cursor: Cursor,
    /// How many bytes of the record at the cursor its reader has been fed.
    pub fed: u16,
    pub from_module: Reader,
    pub from_box: Reader,
}

impl Replay {
    /// At the beginning of a capture, with fresh readers.
    pub fn new() -> Self
        ensures { state_of result ≡ fresh_of frame_limit }
    {
        Replay {
            cursor: Cursor::new(),
            fed: 0,
            from_module: Reader::new(),
            from_box: Reader::new(),
        }
    }

    /// Whether cursor and readers are in range: PROTOCOL 14.6. Calls of a replay that is not answer STATE.
    pub fn is_in_range(&self) -> bool
        ensures { result ≡ in_range_of frame_limit (state_of self.now) }
    {
        self.cursor.is_in_range() && self.from_module.is_in_range() && self.from_box.is_in_range()
    }
}
