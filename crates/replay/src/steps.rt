//! One step of a replay: the head, or the record at the front of what is left. PROTOCOL 14.2 to 14.4.
ghost use Rattle.std.specs.Prelude.{◌≡◌, Some, length};
ghost use Rattle.base.specs.Runs.{left_by};
ghost use Rattle.frame.specs.Wire.{frame_limit};
ghost use Rattle.listing.specs.Feeding.{list_of};
ghost use Rattle.listing.specs.Table.{stop_of as list_stop_of};
ghost use Rattle.capture.specs.Table.{direction_number, error_row_of};
ghost use Rattle.replay.specs.State.{state_of, reader_of, with_reader};
ghost use Rattle.replay.specs.Lines.{prefix_of};
ghost use Rattle.replay.specs.Table.{stop_of};
ghost use Rattle.replay.specs.Playing.{record_run, record_in, step_of, part_left, step_left};

use super::state::Replay;
use capture::{Cursor, Direction, NextError, Record, Refusal, Taken};
use listing::Listed;

/// Why a play stopped: PROTOCOL 14.4. Not an `Err`: lines are written already, and counted beside it.
#[derive(Clone, Copy, Debug, PartialEq, Eq)]
pub enum Stop {
    /// More bytes are needed: 0.
    Done,
    /// The next line might lack room: ROOM.
    Room,
    /// The capture is refused, by the number of the refusal.
    Refused { refusal: Refusal },
    /// The cursor or a reader is out of range: STATE.
    State,
    /// A count of bytes is over 2^62: USED.
    Used,
}

impl From<listing::Stop> for Stop {
    ghost from_gives = { λ listed stop. stop_of stop ≡ list_stop_of listed };

    fn from(stop: listing::Stop) -> Self {
        match stop {
            listing::Stop::Done => Stop::Done,
            listing::Stop::Room => Stop::Room,
            listing::Stop::State => Stop::State,
            listing::Stop::Used => Stop::Used,
        }
    }
}

impl From<NextError> for Stop {
    ghost from_gives = { λ error stop. stop_of stop ≡ (error_row_of error).number };

    fn from(error: NextError) -> Self {
        match error {
            NextError::Refused { refusal, .. } => Stop::Refused { refusal },
            NextError::State => Stop::State,
            NextError::Used => Stop::Used,
        }
    }
}

// What a step did: the bytes used, the bytes of text at the front of the buffer; and why the play stops after it, if it
// is the last.
#[derive(Clone, Copy, Debug, PartialEq, Eq)]
pub(crate) struct Step {
    pub(crate) used: usize,
    pub(crate) written: usize,
    pub(crate) stop: Option<Stop>,
}

impl Step {
    // The play stops, and nothing is done.
    fn last(stop: Stop) -> Self
        ensures { result ≡ record { used = 0; written = 0; stop = Some stop } }
    {
        Step {
            used: 0,
            written: 0,
            stop: Some(stop),
        }
    }
}

impl Replay {
    // The listing's loop over some bytes of a direction, by its reader. The other reader stays. A match, because a
    // replay has two readers with names, and a line's prefix goes with each.
    fn list_part(&mut self, direction: Direction, part: &[u8], out: &mut [u8]) -> Listed
        ensures listed { part_left (direction_number direction) result (state_of self.new) out.new
            ≡ left_by (list_of frame_limit (prefix_of (direction_number direction))
            (reader_of (direction_number direction) (state_of self.old)) part.now (length out.old))
            out.old }
        ensures others { state_of self.new ≡ with_reader (direction_number direction)
            (reader_of (direction_number direction) (state_of self.new))
            self.old.cursor.place self.old.fed (state_of self.old) }
    {
        match direction {
            Direction::FromModule => listing::list(&mut self.from_module, b"0 ", part, out),
            Direction::FromBox => listing::list(&mut self.from_box, b"1 ", part, out),
        }
    }

    // The record at the front, from the first byte on that its reader has not been fed. `next` is the place after it.
    fn play_record(&mut self, found: Record, next: Cursor, bytes: &[u8], out: &mut [u8]) -> Step
        ensures { step_left (result, self.new) out.new ≡ left_by (record_in (record_run frame_limit
            (direction_number found.direction) (state_of self.old) bytes.now (length out.old))
            (direction_number found.direction) found.count next.place (state_of self.old)) out.old }
    {
        // Read before the readers are lent.
        let fed = self.fed;
        let payload = capture::payload(bytes);
        let part = base::part(payload, usize::from(fed), payload.len());
        let Listed {
            used,
            written,
            stop,
        } = self.list_part(found.direction, part, out);
        match stop {
            listing::Stop::Done => {
                self.cursor = next;
                self.fed = 0;
                Step {
                    used: found.count,
                    written,
                    stop: None,
                }
            }
            stop => {
                // `as`, because a payload has no more bytes than a u16 counts.
                self.fed = fed + used as u16;
                Step {
                    used: 0,
                    written,
                    stop: Some(Stop::from(stop)),
                }
            }
        }
    }

    // One step, by what is at the front.
    pub(crate) fn play_one(&mut self, bytes: &[u8], out: &mut [u8]) -> Step
        ensures { step_left (result, self.new) out.new ≡ left_by (step_of frame_limit
            (state_of self.old) bytes.now (length out.old)) out.old }
    {
        let mut next = self.cursor;
        match next.next(bytes) {
            Ok(Taken::Lacking) => Step::last(Stop::Done),
            Ok(Taken::Head) => {
                self.cursor = next;
                Step {
                    used: Taken::Head.count(),
                    written: 0,
                    stop: None,
                }
            }
            Ok(Taken::Record(found)) => self.play_record(found, next, bytes, out),
            Err(error) => Step::last(Stop::from(error)),
        }
    }
}
