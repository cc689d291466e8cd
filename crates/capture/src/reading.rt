//! A capture read from the front of what is left of it, one record to a call. PROTOCOL 13.4 to 13.10.
ghost use Rattle.std.specs.Prelude.{◌≡◌, ◌+◌, ◌^◌, ◌≤◌, length};
ghost use Rattle.capture.specs.Table.{refusal_number, taken_number, taken_of, end_row_of};
ghost use Rattle.capture.specs.Reading.{agrees, in_range_of, head_of, record_of, next_of, lacking_of, end_of};

use crate::record::{Direction, size};

// No more bytes are read from one capture: PROTOCOL 13.9.
const MAX_PLACE: u64 = 1 << 62;

/// How far a capture is read: the place after the last byte taken. 0 where its head is not taken yet.
#[derive(Clone, Copy, Debug, PartialEq, Eq)]
pub struct Cursor {
    pub place: u64,
}

/// Why a capture is refused: PROTOCOL 13.5 to 13.8.
#[derive(Clone, Copy, Debug, PartialEq, Eq)]
pub enum Refusal {
    /// MARK 51: its first 3 bytes are not the mark, or it has fewer.
    Mark,
    /// VERSION 52: the 2 bytes after the mark are not version 1, or not both are there.
    Version,
    /// DIRECTION 53: the byte where a record would begin is above 1.
    Direction,
    /// ENDED 54: the last record is not complete.
    Ended,
}

/// A record at the front of what was offered. `count` is the size of all of it; `payload` has its bytes.
#[derive(Clone, Copy, Debug, PartialEq, Eq)]
pub struct Record {
    pub count: usize,
    pub direction: Direction,
    pub milliseconds: u32,
}

/// What `next` took.
#[derive(Clone, Copy, Debug, PartialEq, Eq)]
pub enum Taken {
    /// Nothing: bytes are lacking.
    Lacking,
    /// The capture's head.
    Head,
    Record(Record),
}

/// Why a call takes nothing, and leaves the cursor as it was.
#[derive(Clone, Copy, Debug, PartialEq, Eq)]
pub enum NextError {
    /// A byte at this place refuses the capture, or the capture ends there.
    Refused { refusal: Refusal, place: u64 },
    /// STATE 17: the cursor is out of its range.
    State,
    /// USED 18: with these bytes the capture would be longer than 2^62.
    Used,
}

/// What a capture is that ends where `finish` was called.
// Not an Option, which is no plainer: PROTOCOL 13.10 has a meaning for both answers, and `None` would not say that
// `next` is still to be called.
#[derive(Clone, Copy, Debug, PartialEq, Eq)]
pub enum Ending {
    /// `next` has something to take.
    More,
    /// The capture is whole, and this is its end.
    Whole { place: u64 },
}

impl Refusal {
    /// Its number, as it is printed.
    // A method, and no `From`: the number is the answer's in the table, and no value that another type would take.
    pub fn number(self) -> u8
        ensures { result ≡ refusal_number self }
    {
        match self {
            Refusal::Mark => 51,
            Refusal::Version => 52,
            Refusal::Direction => 53,
            Refusal::Ended => 54,
        }
    }
}

impl Taken {
    /// How many bytes were taken. A match, because it is the table of the three.
    pub fn count(self) -> usize
        ensures { result ≡ taken_number self }
    {
        match self {
            Taken::Lacking => 0,
            Taken::Head => 5,
            Taken::Record(record) => record.count,
        }
    }
}

// Whether some bytes are as wanted, as far as both go.
#[tactic(auto, using(crate::proofs::ReadingLaws::fronts_agree))]
fn agree(wanted: &[u8], bytes: &[u8]) -> bool
    ensures { result ≡ agrees wanted.now bytes.now }
{
    let count = wanted.len().min(bytes.len());
    wanted[..count] == bytes[..count]
}

impl Cursor {
    /// At the beginning of a capture.
    pub fn new() -> Self
        ensures { result.place ≡ 0 }
    {
        Cursor { place: 0 }
    }

    /// At the beginning, or after the head: every other place is STATE.
    pub fn is_in_range(&self) -> bool
        ensures { result ≡ in_range_of self.now.place }
    {
        self.place == 0 || (5..=MAX_PLACE).contains(&self.place)
    }

    // The head, at the front of a capture. Each byte that is there is tested.
    fn next_head(&mut self, bytes: &[u8]) -> Result<Taken, NextError>
        requires { self.old.place ≡ 0 }
        ensures { taken_of result self.new ≡ head_of bytes.now }
    {
        if !agree(b"LFT", bytes) {
            return Err(NextError::Refused {
                refusal: Refusal::Mark,
                place: 0,
            });
        }
        if !agree(b"LFT\x00\x01", bytes) {
            return Err(NextError::Refused {
                refusal: Refusal::Version,
                place: 3,
            });
        }
        if bytes.len() < 5 {
            return Ok(Taken::Lacking);
        }
        self.place = 5;
        Ok(Taken::Head)
    }

    // A record, at the front of what is left. Its first byte is tested as soon as it is there, and it is taken when
    // all of it is.
    fn next_record(&mut self, bytes: &[u8]) -> Result<Taken, NextError>
        requires { self.old.place + length bytes.now ≤ 2 ^ 62 }
        ensures { taken_of result self.new ≡ record_of self.old.place bytes.now }
    {
        let Ok(direction) = Direction::try_from(base::byte_at(bytes, 0)) else {
            return Err(NextError::Refused {
                refusal: Refusal::Direction,
                place: self.place,
            });
        };
        let count = size(bytes);
        if bytes.len() < count {
            return Ok(Taken::Lacking);
        }
        self.place += count as u64;
        Ok(Taken::Record(Record {
            count,
            direction,
            milliseconds: base::four_at(bytes, 1),
        }))
    }

    /// Takes the head or one record from the front of what is left of a capture. Bytes that are not taken come again,
    /// with more after them.
    pub fn next(&mut self, bytes: &[u8]) -> Result<Taken, NextError>
        ensures { taken_of result self.new ≡ next_of self.old.place bytes.now }
    {
        if !self.is_in_range() {
            return Err(NextError::State);
        }
        if MAX_PLACE - self.place < bytes.len() as u64 {
            return Err(NextError::Used);
        }
        if self.place == 0 {
            return self.next_head(bytes);
        }
        self.next_record(bytes)
    }

    // What is lacking where a capture ends and nothing can be taken.
    fn lacking(&self, bytes: &[u8]) -> Result<Ending, NextError>
        ensures { end_row_of result ≡ lacking_of self.now.place bytes.now }
    {
        let (refusal, place) = match (self.place, bytes.len()) {
            (0, 0..=2) => (Refusal::Mark, 0),
            (0, _) => (Refusal::Version, 3),
            (place, 0) => return Ok(Ending::Whole { place }),
            (place, _) => (Refusal::Ended, place),
        };
        Err(NextError::Refused { refusal, place })
    }

    /// Says what a capture is that ends after these bytes, which are all that is left of it.
    pub fn finish(&self, bytes: &[u8]) -> Result<Ending, NextError>
        ensures { end_row_of result ≡ end_of self.now.place bytes.now }
    {
        let mut ahead = *self;
        match ahead.next(bytes)? {
            Taken::Lacking => self.lacking(bytes),
            Taken::Head | Taken::Record(_) => Ok(Ending::More),
        }
    }
}
