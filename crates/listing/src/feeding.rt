//! The loop over bytes: each answer's line follows the previous ones, until the bytes or the room end.
//! PROTOCOL 10.9, 10.10.
ghost use Rattle.std.specs.Prelude.{◌≡◌, ◌+◌, ◌≤◌, Ok, Err, length};
ghost use Rattle.base.specs.Stores.{PutAt};
ghost use Rattle.base.specs.Runs.{left_by};
ghost use Rattle.frame.specs.Wire.{frame_limit};
ghost use Rattle.frame.specs.State.{state_of};
ghost use Rattle.frame.specs.Table.{row_of};
ghost use Rattle.listing.specs.Lines.{answer_text, line_room};
ghost use Rattle.listing.specs.Table.{stop_of};
ghost use Rattle.listing.specs.Feeding.{loop_of, list_of, left_of};

use super::lines::line;
use frame::{Fed, FeedError, Reader};

// No answer's line has more bytes from its word on: PROTOCOL 10.9.
const LINE_ROOM: usize = 132;

/// Why a loop stopped: PROTOCOL 10.10. Not an `Err`: lines are written already, and counted beside it.
#[derive(Clone, Copy, Debug, PartialEq, Eq)]
pub enum Stop {
    /// All bytes are used: 0.
    Done,
    /// The next line might lack room: ROOM.
    Room,
    /// A field of the reader is out of range: STATE.
    State,
    /// With these bytes the reader would consume more than 2^62 in all: USED.
    Used,
}

impl From<FeedError> for Stop {
    ghost from_gives = { λ error stop. stop_of stop ≡ (row_of (Err error)).number };

    fn from(error: FeedError) -> Self {
        match error {
            FeedError::State => Stop::State,
            FeedError::Used => Stop::Used,
        }
    }
}

/// What a call of the loop did: the bytes used, the bytes of text at the front of the buffer, and why it stopped.
// A stop comes with bytes used and lines written before it, so that it cannot be an `Err`.
#[derive(Clone, Copy, Debug, PartialEq, Eq)]
pub struct Listed {
    pub used: usize,
    pub written: usize,
    pub stop: Stop,
}

// Puts the line of an answer at a place of the buffer that has room for it; returns the place that follows it.
fn add_line(fed: Fed, prefix: &[u8], body: &[u8], out: &mut [u8], at: usize) -> usize
    requires { at + length prefix.now + line_room ≤ length out.old }
    ensures put_at { PutAt out.old at
        (answer_text prefix.now (row_of (Ok fed)) body.now) result out.new }
    ensures upper_bound { result ≤ length out.old }
{
    at + base::count(line(Ok(fed), prefix, body, &mut out[at..]))
}

// Feeds bytes to a reader and puts the line of each answer.
fn feed_all(reader: &mut Reader, prefix: &[u8], bytes: &[u8], out: &mut [u8]) -> Listed
    ensures { left_of (result, reader.new) out.new ≡ left_by (loop_of frame_limit prefix.now
        (state_of reader.old) bytes.now (length out.old)) out.old }
{
    let mut used = 0;
    let mut written = 0;
    // Counted by hand: how many feeds the bytes take is not known before, and `break` says why the loop stopped.
    let stop = loop {
        if used == bytes.len() {
            break Stop::Done;
        }
        if out.len() - written < prefix.len() + LINE_ROOM {
            break Stop::Room;
        }
        match reader.feed(&bytes[used..]) {
            Err(error) => break Stop::from(error),
            Ok(fed) => {
                used += fed.count;
                written = add_line(fed, prefix, &reader.body, out, written);
            }
        }
    };
    Listed {
        used,
        written,
        stop,
    }
}

/// Feeds bytes and puts the line of each answer. Where it stops for room, the caller writes the text and calls again
/// with the bytes that are left. Room is tested before a feed, so that no answer is lost. A feed with no data comes
/// first, so that a reader out of range is found even with no room and no bytes.
pub fn list(reader: &mut Reader, prefix: &[u8], bytes: &[u8], out: &mut [u8]) -> Listed
    ensures leaves { left_of (result, reader.new) out.new ≡ left_by (list_of frame_limit prefix.now
        (state_of reader.old) bytes.now (length out.old)) out.old }
    ensures within { result.used ≤ length bytes.now }
{
    if let Err(error) = reader.feed(b"") {
        return Listed {
            used: 0,
            written: 0,
            stop: Stop::from(error),
        };
    }
    feed_all(reader, prefix, bytes, out)
}
