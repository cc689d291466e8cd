//! The streaming reader: feed and finish. PROTOCOL 3.1 to 3.3, 4.1 to 4.20.
ghost use Rattle.std.specs.Prelude.{◌≡◌, ◌<◌, Ok, length};
ghost use Rattle.frame.specs.Wire.{frame_limit};
ghost use Rattle.frame.specs.State.{scan_of, state_of, put_in, byte_in};
ghost use Rattle.frame.specs.Rules.{Ready, in_range_of, put_of};
ghost use Rattle.frame.specs.Table.{row_of, count_of};
ghost use Rattle.frame.specs.Calls.{fresh_of, run_of, feed_of, finish_of, fed_of, finished_of};

use crate::LIMIT;
use crate::place::{MAX_CONSUMED, WirePlace};
use crate::scan::{Phase, Scan, Verdict};
use base::StateError;

/// A reader, with the array that holds a body: PROTOCOL 3.1. Any value may be given; one out of range is refused.
#[derive(Clone, Copy, Debug, PartialEq, Eq)]
pub struct Reader {
    /// Where it is in the wire.
    pub scan: Scan,
    /// The bytes kept for a body.
    pub body: [u8; 1026],
}

/// A frame decided: its first byte on the wire, the place behind its last one, and what it ends in.
#[derive(Clone, Copy, Debug, PartialEq, Eq)]
pub struct Decision {
    pub start: WirePlace,
    pub end: WirePlace,
    pub verdict: Verdict,
}

/// How many bytes a feed consumed, and what the last of them decided: PROTOCOL 4.1 to 4.8. `None` is MORE.
#[derive(Clone, Copy, Debug, PartialEq, Eq)]
pub struct Fed {
    pub count: usize,
    pub decision: Option<Decision>,
}

/// Why a feed consumed nothing; the reader stays as it was.
#[derive(Clone, Copy, Debug, PartialEq, Eq)]
pub enum FeedError {
    /// A field of the reader is out of range: STATE, PROTOCOL 4.10.
    State,
    /// With these bytes the reader would consume more than 2^62 in all: USED, PROTOCOL 4.11.
    Used,
}

/// How the input ends: PROTOCOL 4.3, 4.9. `consumed` counts the bytes in all.
#[derive(Clone, Copy, Debug, PartialEq, Eq)]
pub enum Finish {
    /// No frame is open: CLEAN.
    Clean {
        consumed: WirePlace,
    },
    /// A frame is open, which begins at `start`: OPEN.
    Open {
        consumed: WirePlace,
        start: WirePlace,
    },
}

impl Reader {
    /// A fresh reader.
    #[tactic(auto, unfolding(crate::specs::Calls::zeros))]
    pub fn new() -> Self
        ensures { state_of result ≡ fresh_of frame_limit }
    {
        Reader {
            scan: Scan::closed(WirePlace(0)),
            body: [0; 1026],
        }
    }

    /// Whether each field is in its range: PROTOCOL 4.17. Calls of a reader that is not answer STATE.
    pub fn is_in_range(&self) -> bool
        ensures { result ≡ in_range_of frame_limit (scan_of self.now.scan) }
    {
        self.scan.consumed.0 <= MAX_CONSUMED && self.scan.filled.0 <= LIMIT + 1
    }

    // Stores a body byte at its place, if there is one: PROTOCOL 3.2.
    fn store(&mut self, at: usize, stored: Option<u8>)
        requires { at < 1026 }
        ensures { self.new ≡ record self.old { body = put_of (put_in stored) self.old.body at (byte_in stored) } }
    {
        if let Some(byte) = stored {
            self.body[at] = byte;
        }
    }

    /// The byte loop: it stops directly after the first byte that decides. PROTOCOL 3.2, 3.3.
    fn run(&mut self, bytes: &[u8]) -> Fed
        requires { Ready frame_limit (scan_of self.old.scan) (length bytes.now) }
        ensures { fed_of (Ok result, self.new) ≡ run_of frame_limit bytes.now 0 (state_of self.old) }
    {
        // `break` carries what was decided: the form of rule 3.3 (docs/DECISIONS.md, "Forms that the rules name"). A
        // `for` gives no value, and would store the scan at two exits.
        let mut scan = self.scan;
        let mut count = 0;
        let decision = loop {
            if count == bytes.len() {
                break None;
            }
            let before = scan;
            let step = before.advance(bytes[count]);
            scan = step.scan;
            count += 1;
            if let Some(verdict) = step.verdict {
                self.store(before.filled.0, step.stored);
                break Some(Decision {
                    start: before.start,
                    end: scan.consumed,
                    verdict,
                });
            }
            self.store(before.filled.0, step.stored);
        };
        self.scan = scan;
        Fed { count, decision }
    }

    /// Consumes the first of the bytes, up to the one that decides a frame: STATE, then USED, then the byte rules.
    /// PROTOCOL 4.15.
    pub fn feed(&mut self, bytes: &[u8]) -> Result<Fed, FeedError>
        ensures { fed_of (result, self.new) ≡ feed_of frame_limit (state_of self.old) bytes.now }
    {
        if !self.is_in_range() {
            return Err(FeedError::State);
        }
        if MAX_CONSUMED - self.scan.consumed.0 < bytes.len() as u64 {
            return Err(FeedError::Used);
        }
        Ok(self.run(bytes))
    }

    /// Says that the input ends; the reader stays as it is.
    pub fn finish(&self) -> Result<Finish, StateError>
        ensures { finished_of (result, self.now) ≡ finish_of frame_limit (state_of self.now) }
    {
        if !self.is_in_range() {
            return Err(StateError);
        }
        let Scan {
            phase,
            consumed,
            start,
            ..
        } = self.scan;
        Ok(match phase {
            Phase::Idle | Phase::Half => Finish::Clean { consumed },
            Phase::Header | Phase::Open | Phase::Escape => Finish::Open { consumed, start },
        })
    }
}

/// The bytes that a feed consumed; none where it is refused.
pub fn count(answer: Result<Fed, FeedError>) -> usize
    ensures { result ≡ count_of (row_of answer) }
{
    answer.map_or(0, |fed| fed.count)
}
