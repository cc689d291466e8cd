//! The byte rules: what one byte on the wire does to the reader's scan. PROTOCOL 3.4 to 3.18, 4.6, 4.19, 4.20.
ghost use Rattle.std.specs.Prelude.{◌≡◌};
ghost use Rattle.frame.specs.Wire.{frame_limit};
ghost use Rattle.frame.specs.State.{scan_of, step_of};
ghost use Rattle.frame.specs.Rules.{closed_of, body_byte_of, on_ff_of, on_other_of, advance_of, Ready};

use crate::LIMIT;
use crate::place::{BodyPlace, WirePlace};

/// How far a frame is begun.
#[derive(Clone, Copy, Debug, PartialEq, Eq)]
pub enum Phase {
    /// No frame is open; the last byte is not FF, or there is none.
    Idle,
    /// No frame is open; the last byte is FF.
    Half,
    /// A frame is open without a body byte; the last byte ends its header.
    Header,
    /// A frame is open with a body byte; the last byte is not FF.
    Open,
    /// A frame is open with a body byte; an FF waits for the next byte.
    Escape,
}

/// Where the reader is; docs/STATES.md has the range of each field.
#[derive(Clone, Copy, Debug, PartialEq, Eq)]
pub struct Scan {
    pub phase: Phase,
    /// The bytes consumed in all.
    pub consumed: WirePlace,
    /// Where the open frame begins.
    pub start: WirePlace,
    /// The body bytes so far.
    pub filled: BodyPlace,
    /// The frame's length L, as far as it is read.
    pub length: u16,
    /// The sum of the body bytes so far.
    pub sum: u8,
}

/// The size of a body's head: length, command, sequence number and flags. PROTOCOL 4.19.
const HEAD_SIZE: usize = 6;

/// What an open frame ends in: PROTOCOL 4.2, 4.4 to 4.8.
#[derive(Clone, Copy, Debug, PartialEq, Eq)]
pub enum Verdict {
    /// The frame is complete, and its sum is right.
    Frame,
    /// Its length is below the least one.
    Short,
    /// Its length is over the limit.
    Long,
    /// A byte breaks the stuffing in the head; the byte. PROTOCOL 4.19.
    Stuff { byte: u8 },
    /// The same behind the head.
    StuffLate { byte: u8 },
    /// A header comes before the frame is complete.
    Cut,
    /// The sum found in the body is not the one computed. PROTOCOL 4.20.
    Sum { found: u8, computed: u8 },
}

/// What one byte does: the next scan, the body byte to store, and what is decided.
#[derive(Clone, Copy, Debug, PartialEq, Eq)]
pub struct Step {
    pub scan: Scan,
    pub stored: Option<u8>,
    pub verdict: Option<Verdict>,
}

impl Scan {
    /// No frame is open, and the last byte is not FF: a decided frame never ends in FF, by PROTOCOL 2.8 and 3.11.
    pub(crate) const fn closed(consumed: WirePlace) -> Self
        ensures { scan_of result ≡ closed_of consumed.0 }
    {
        Scan {
            phase: Phase::Idle,
            consumed,
            start: WirePlace(0),
            filled: BodyPlace(0),
            length: 0,
            sum: 0,
        }
    }

    // `Ready` is what `feed` tests and no invariant of `Scan`: a caller may pass any reader, and STATE answers it.

    // The same with another length.
    fn of_length(self, length: u16) -> Self
        ensures { result ≡ record self { length = length } }
    {
        Scan { length, ..self }
    }

    /// A body byte, at the byte on the wire that completes it: PROTOCOL 3.12 to 3.14, 3.16.
    fn body_byte(self, byte: u8) -> Step
        requires { Ready frame_limit (scan_of self) 1 }
        ensures { step_of result ≡ body_byte_of frame_limit (scan_of self) byte }
    {
        let consumed = self.consumed.next();
        let closed = Scan::closed(consumed);
        let grown = Scan {
            phase: Phase::Open,
            consumed,
            filled: BodyPlace(self.filled.0 + 1),
            sum: self.sum.wrapping_add(byte),
            ..self
        };
        let (scan, verdict) = match self.filled.0 {
            0 => (grown.of_length(u16::from(byte)), None),
            1 => match usize::from(self.length) * 256 + usize::from(byte) {
                0..5 => (closed, Some(Verdict::Short)),
                length if length > LIMIT => (closed, Some(Verdict::Long)),
                // `as`, because no length up to the limit is refused by a u16.
                length => (grown.of_length(length as u16), None),
            },
            // A record that a caller made up may name any length: PROTOCOL 3.18.
            filled if filled <= usize::from(self.length) && filled <= LIMIT => (grown, None),
            _ if byte == self.sum => (closed, Some(Verdict::Frame)),
            _ => (
                closed,
                Some(Verdict::Sum {
                    found: byte,
                    computed: self.sum,
                }),
            ),
        };
        Step {
            scan,
            stored: Some(byte),
            verdict,
        }
    }

    /// A byte FF: PROTOCOL 3.4, 3.5, 3.8, 3.10.
    fn on_ff(self) -> Step
        requires { Ready frame_limit (scan_of self) 1 }
        ensures { step_of result ≡ on_ff_of (scan_of self) }
    {
        let consumed = self.consumed.next();
        let closed = Scan::closed(consumed);
        let half = Scan {
            phase: Phase::Half,
            ..closed
        };
        let header = Scan {
            phase: Phase::Header,
            start: self.consumed.previous(),
            ..closed
        };
        let escape = Scan {
            phase: Phase::Escape,
            consumed,
            ..self
        };
        let (scan, verdict) = match self.phase {
            Phase::Idle => (half, None),
            Phase::Half | Phase::Header => (header, None),
            Phase::Open => (escape, None),
            Phase::Escape => (header, Some(Verdict::Cut)),
        };
        Step {
            scan,
            stored: None,
            verdict,
        }
    }

    /// A byte other than FF: PROTOCOL 3.6, 3.7, 3.9, 3.11, 3.15, 4.6, 4.19.
    fn on_other(self, byte: u8) -> Step
        requires { Ready frame_limit (scan_of self) 1 }
        ensures { step_of result ≡ on_other_of frame_limit (scan_of self) byte }
    {
        let verdict = match self.phase {
            Phase::Header | Phase::Open => return self.body_byte(byte),
            Phase::Escape if byte == 0x55 => return self.body_byte(0xFF),
            Phase::Idle | Phase::Half => None,
            Phase::Escape if self.filled.0 < HEAD_SIZE => Some(Verdict::Stuff { byte }),
            Phase::Escape => Some(Verdict::StuffLate { byte }),
        };
        Step {
            scan: Scan::closed(self.consumed.next()),
            stored: None,
            verdict,
        }
    }

    /// One byte on the wire.
    #[inline(always)]
    pub(crate) fn advance(self, byte: u8) -> Step
        requires { Ready frame_limit (scan_of self) 1 }
        ensures { step_of result ≡ advance_of frame_limit (scan_of self) byte }
    {
        if byte == 0xFF {
            self.on_ff()
        } else {
            self.on_other(byte)
        }
    }
}
