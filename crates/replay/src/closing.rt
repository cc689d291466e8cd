//! The end of a replay: both end lines, or the line of the refusal. PROTOCOL 14.3, 14.5.
ghost use Rattle.std.specs.Prelude.{◌≡◌, ◌≤◌, length, take};
ghost use Rattle.base.specs.Outcomes.{placed};
ghost use Rattle.base.specs.Writes.{Writes};
ghost use Rattle.frame.specs.Wire.{frame_limit};
ghost use Rattle.frame.specs.State.{state_of as reader_state_of};
ghost use Rattle.frame.specs.Calls.{finish_of};
ghost use Rattle.listing.specs.Lines.{last_of};
ghost use Rattle.replay.specs.State.{state_of};
ghost use Rattle.replay.specs.Closing.{end_lines, close_of, Closes};

use super::state::Replay;
use base::WriteError;
use capture::{Ending, NextError, Refusal};
use frame::Reader;

/// How a replay ends, with the text at the front of the buffer: PROTOCOL 14.5.
#[derive(Clone, Copy, Debug, PartialEq, Eq)]
pub enum Closing {
    /// `play` has something to list, and there is no text: MORE.
    More,
    /// Both end lines: 2.
    Whole {
        count: usize,
    },
    /// The line of the refusal.
    Refused {
        count: usize,
        refusal: Refusal,
        place: u64,
    },
}

/// Why `finish` wrote nothing.
#[derive(Clone, Copy, Debug, PartialEq, Eq)]
pub enum CloseError {
    /// The cursor or a reader is out of range: STATE.
    State,
    /// With these bytes the capture would be longer than 2^62: USED.
    Used,
    /// The buffer is too small for the text: ROOM. It is never PAYLOAD.
    Unwritten(WriteError),
}

impl From<WriteError> for CloseError {
    ghost use Rattle.replay.specs.declared.closing.CloseError.{CloseError};

    ghost from_gives = { λ why error. error ≡ CloseError.Unwritten why };

    fn from(why: WriteError) -> Self {
        CloseError::Unwritten(why)
    }
}

// The end line of a direction, in a buffer that has room for it.
fn end_line<'a>(reader: &Reader, prefix: &[u8], line: &'a mut [u8; 160]) -> &'a [u8]
    requires { length prefix.now ≤ 2 }
    ensures { result.now ≡ last_of prefix.now
        (finish_of frame_limit (reader_state_of reader.now)).row }
{
    let count = base::count(listing::last(reader.finish(), prefix, line));
    &line[..count]
}

impl Replay {
    // The end lines, of the module's bytes and then of the box's. In arrays, because nothing here takes memory.
    fn put_ends(&self, out: &mut [u8]) -> Result<usize, WriteError>
        ensures { Writes result out.new
            (placed (end_lines frame_limit (state_of self.now)) out.old) }
    {
        let mut line0 = [0; 160];
        let mut line1 = [0; 160];
        base::write_both(
            end_line(&self.from_module, b"0 ", &mut line0),
            end_line(&self.from_box, b"1 ", &mut line1),
            out,
        )
    }

    /// Puts the text that ends the replay of a capture of which these bytes are all that is left; after a refusal, of
    /// which they are the front.
    pub fn finish(&self, bytes: &[u8], out: &mut [u8]) -> Result<Closing, CloseError>
        ensures { Closes result out.new
            (close_of frame_limit (state_of self.now) bytes.now out.old) }
    {
        if !self.is_in_range() {
            return Err(CloseError::State);
        }
        match self.cursor.finish(bytes) {
            Ok(Ending::More) => Ok(Closing::More),
            Ok(Ending::Whole { .. }) => {
                let count = self.put_ends(out)?;
                Ok(Closing::Whole { count })
            }
            Err(NextError::Refused { refusal, place }) => {
                let count = listing::refusal(u64::from(refusal.number()), place, out)?;
                Ok(Closing::Refused {
                    count,
                    refusal,
                    place,
                })
            }
            Err(NextError::State) => Err(CloseError::State),
            Err(NextError::Used) => Err(CloseError::Used),
        }
    }
}
