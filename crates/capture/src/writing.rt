//! A capture written, so that a recorder can make one: its head, and then record after record. PROTOCOL 13.11, 13.12.
ghost use Rattle.base.specs.Writes.{Writes};
ghost use Rattle.capture.specs.Format.{head_write_of, record_write_of};
ghost use Rattle.capture.specs.Table.{direction_number};

use crate::record::Direction;
use base::WriteError;

// A record's count has two bytes: PROTOCOL 13.3.
const MAX_PAYLOAD: usize = 65535;

/// The head: what a capture begins with. ROOM with 5 where the output is shorter.
pub fn write_head(out: &mut [u8]) -> Result<usize, WriteError>
    ensures { Writes result out.new (head_write_of out.old) }
{
    base::write_both(b"LFT\x00\x01", b"", out)
}

/// A record of some bytes. PAYLOAD above 65,535 of them; then ROOM with the size of the record, 7 bytes more.
pub fn write_record(
    direction: Direction,
    milliseconds: u32,
    payload: &[u8],
    out: &mut [u8],
) -> Result<usize, WriteError>
    ensures { Writes result out.new (record_write_of (direction_number direction) milliseconds
        payload.now out.old) }
{
    if payload.len() > MAX_PAYLOAD {
        return Err(WriteError::Payload);
    }
    let [highest, higher, lower, lowest] = milliseconds.to_be_bytes();
    // `as`, because no size that passed the test is refused by a u16.
    let [high, low] = (payload.len() as u16).to_be_bytes();
    let head = [
        u8::from(direction),
        highest,
        higher,
        lower,
        lowest,
        high,
        low,
    ];
    base::write_both(&head, payload, out)
}
