//! The writer: a frame goes into the caller's buffer byte by byte, without a copy of its body. PROTOCOL 6.1 to 6.7.
ghost use Rattle.std.specs.Prelude.{ℕ, ◌≡◌, ◌+◌, ◌*◌, ◌%◌, ◌^◌, ◌≤◌, List, [], ◌∷◌, length};
ghost use Rattle.std.specs.Prelude.{None, Some, if◌then◌else◌, nat_lt};
ghost use Rattle.base.specs.Stores.{PutAt};
ghost use Rattle.base.specs.Writes.{Writes};
ghost use Rattle.frame.specs.Wire.{stuff, head_of, joined, joined_chunks, frame_limit};
ghost use Rattle.frame.specs.Calls.{framed, write_of, Added, Measured};
ghost use Rattle.base.specs.Sums.{total};

use super::LIMIT;
use base::WriteError;

/// What a frame has beside its payload: PROTOCOL 2.2 to 2.5. Every value may be written.
#[derive(Clone, Copy, Debug, PartialEq, Eq)]
pub struct Head {
    /// The command.
    pub command: u8,
    /// The sequence number, which pairs a reply with its command.
    pub number: u8,
    /// The flags, written with the high byte first.
    pub flags: u16,
}

impl Head {
    // The first bytes of a body whose payload has this size: length, command, sequence number, flags.
    fn bytes(self, size: usize) -> [u8; 6]
        requires { size + 5 ≤ frame_limit }
        ensures { result ≡ head_of size self.command self.number self.flags }
    {
        // `as`, because no size that fits a frame is refused by a u16.
        let [length_high, length_low] = (size as u16 + 5).to_be_bytes();
        let [flags_high, flags_low] = self.flags.to_be_bytes();
        [
            length_high,
            length_low,
            self.command,
            self.number,
            flags_high,
            flags_low,
        ]
    }
}

// The size on the wire of some body bytes, and their sum.
#[derive(Clone, Copy)]
struct Measure {
    count: usize,
    sum: u8,
}

// Bytes of a body: in one slice, in three, or in several, one after another. The writer for C takes one, and no other
// loop is in its archive: where an address is at a computed place, as that of a part is, processors differ.
trait Bytes: Copy {
    ghost bytes: { Self → List ℕ };

    // Their number, where a frame can have so many in its payload.
    fn size(self) -> Option<usize>
        ensures { result ≡ (if nat_lt frame_limit (length (bytes self) + 5)
            then None
            else Some (length (bytes self))) };

    // A measure with these bytes added.
    fn added(self, from: Measure) -> Measure
        requires { from.count + 2 * length (bytes self) ≤ 2 ^ 20 }
        ensures { Added from.count from.sum (bytes self) result.count result.sum };

    // Puts these bytes, stuffed, at a place of the buffer; returns the next place.
    fn put(self, out: &mut [u8], at: usize) -> usize
        requires { at + length (stuff (bytes self)) ≤ length out.old }
        ensures { PutAt out.old at (stuff (bytes self)) result out.new };
}

impl Bytes for &[u8] {
    ghost bytes = { λ slice. slice.now };

    fn size(self) -> Option<usize> {
        if LIMIT - 5 < self.len() {
            None
        } else {
            Some(self.len())
        }
    }

    fn added(self, from: Measure) -> Measure {
        let mut count = from.count;
        let mut sum = from.sum;
        for byte in self {
            count += width(*byte);
            sum = sum.wrapping_add(*byte);
        }
        Measure { count, sum }
    }

    fn put(self, out: &mut [u8], at: usize) -> usize {
        let mut next = at;
        for byte in self {
            next = put_byte(out, next, *byte);
        }
        next
    }
}

impl Bytes for &[&[u8]] {
    ghost bytes = { λ parts. joined parts.now };

    // Many parts may have more bytes than a usize can count.
    fn size(self) -> Option<usize> {
        let mut size = 0;
        for part in self {
            if LIMIT - 5 - size < part.len() {
                return None;
            }
            size += part.len();
        }
        Some(size)
    }

    fn added(self, from: Measure) -> Measure {
        let mut measure = from;
        for part in self {
            measure = part.added(measure);
        }
        measure
    }

    fn put(self, out: &mut [u8], at: usize) -> usize {
        let mut next = at;
        for part in self {
            next = part.put(out, next);
        }
        next
    }
}

// The chunks of a message. In fields, because no array of slices is made for them: docs/STACK.md.
#[derive(Clone, Copy)]
struct Chunks<'a, 'b, 'c> {
    first: &'a [u8],
    second: &'b [u8],
    third: &'c [u8],
}

impl Bytes for Chunks<'_, '_, '_> {
    ghost bytes = { λ chunks. joined_chunks chunks.first.now chunks.second.now chunks.third.now };

    fn size(self) -> Option<usize> {
        let size = self.first.size()? + self.second.size()? + self.third.size()?;
        if LIMIT - 5 < size { None } else { Some(size) }
    }

    fn added(self, from: Measure) -> Measure {
        self.third.added(self.second.added(self.first.added(from)))
    }

    fn put(self, out: &mut [u8], at: usize) -> usize {
        let after_first = self.first.put(out, at);
        let after_second = self.second.put(out, after_first);
        self.third.put(out, after_second)
    }
}

// The size of a body byte on the wire.
fn width(byte: u8) -> usize
    ensures { result ≡ length (stuff (byte ∷ [])) }
{
    if byte == 0xFF { 2 } else { 1 }
}

// The size of a frame on the wire, and its sum.
fn sized<P: Bytes>(head: [u8; 6], payload: P) -> Measure
    requires { length (P.bytes payload) + 5 ≤ frame_limit }
    ensures { Measured head (P.bytes payload) result.count result.sum }
{
    let begun = (&head[..]).added(Measure { count: 2, sum: 0 });
    let Measure { count, sum } = payload.added(begun);
    Measure {
        count: count + width(sum),
        sum,
    }
}

// Puts a body byte, stuffed, at a place of the buffer; returns the next place.
fn put_byte(out: &mut [u8], at: usize, byte: u8) -> usize
    requires { at + length (stuff (byte ∷ [])) ≤ length out.old }
    ensures { PutAt out.old at (stuff (byte ∷ [])) result out.new }
{
    out[at] = byte;
    if byte == 0xFF {
        out[at + 1] = 0x55;
        at + 2
    } else {
        at + 1
    }
}

// Puts a whole frame at the front of a buffer that has room for it; returns its size.
fn put_frame<P: Bytes>(out: &mut [u8], head: [u8; 6], payload: P, sum: u8) -> usize
    requires { length (framed head (P.bytes payload) sum) ≤ length out.old }
    ensures { PutAt out.old 0 (framed head (P.bytes payload) sum) result out.new }
{
    out[0] = 0xFF;
    out[1] = 0xFF;
    let after_head = (&head[..]).put(out, 2);
    let after_payload = payload.put(out, after_head);
    put_byte(out, after_payload, sum)
}

// Writes a frame from a payload in one slice or in several.
fn write_any<P: Bytes>(head: Head, payload: P, out: &mut [u8]) -> Result<usize, WriteError>
    ensures { Writes result out.new
        (write_of frame_limit head.command head.number head.flags (P.bytes payload) out.old) }
{
    let Some(size) = payload.size() else {
        return Err(WriteError::Payload);
    };
    let head = head.bytes(size);
    let measure = sized(head, payload);
    if out.len() < measure.count {
        return Err(WriteError::Room {
            needed: measure.count,
        });
    }
    Ok(put_frame(out, head, payload, measure.sum))
}

/// Writes a frame at the front of the caller's buffer and returns its size, at most 2,054 bytes. Each FF after the
/// header has a 55 behind it. Or refuses, and the buffer is unchanged: PAYLOAD where the payload has more than 1,019
/// bytes; then ROOM, with the size of the frame, where the buffer is smaller than that. PROTOCOL 6.1 to 6.5.
pub fn write(head: Head, payload: &[u8], out: &mut [u8]) -> Result<usize, WriteError>
    ensures { Writes result out.new
        (write_of frame_limit head.command head.number head.flags payload.now out.old) }
{
    write_any(head, payload, out)
}

/// The same with a payload in any number of parts, one after another, which are not copied together: PROTOCOL 6.6.
pub fn write_parts(head: Head, parts: &[&[u8]], out: &mut [u8]) -> Result<usize, WriteError>
    ensures { Writes result out.new
        (write_of frame_limit head.command head.number head.flags (joined parts.now) out.old) }
{
    write_any(head, parts, out)
}

/// The same with a payload in three chunks, of which no array is made.
pub fn write_chunks(
    head: Head,
    first: &[u8],
    second: &[u8],
    third: &[u8],
    out: &mut [u8],
) -> Result<usize, WriteError>
    ensures { Writes result out.new
        (write_of frame_limit head.command head.number head.flags
        (joined_chunks first.now second.now third.now) out.old) }
{
    let chunks = Chunks {
        first,
        second,
        third,
    };
    write_any(head, chunks, out)
}
