//! The frame writer for the C firmware of a box, under one exported name. PROTOCOL 6.9, 6.10.
#![tactic(auto)]

ghost use Rattle.std.specs.Prelude.{◌≡◌};
ghost use Rattle.frame.specs.Wire.{frame_limit};
ghost use Rattle.frame.specs.Calls.{write_of};
ghost use Rattle.firmware.specs.Code.{returned, returned_of};

use base::WriteError;
use frame::Head;

// What PAYLOAD's number is added to. No count reaches it: PROTOCOL 2.8.
const REFUSED: u32 = 65_536;

// What the length that is needed is added to, for ROOM.
const NO_ROOM: u32 = 131_072;

/// Writes a frame at the front of the caller's buffer and returns its size, at most 2,054 bytes. Or refuses, and the
/// buffer is unchanged: 65,557 where the payload has more than 1,019 bytes; then 131,072 and the size of the frame,
/// where the buffer is smaller than that. In C each slice is a pointer and a length. PROTOCOL 6.9, 6.12.
#[unsafe(no_mangle)]
pub extern "C" fn trogonreed_write_frame(
    command: u8,
    number: u8,
    flags: u16,
    payload: &[u8],
    out: &mut [u8],
) -> u32
    ensures { returned result out.new
        ≡ returned_of (write_of frame_limit command number flags payload.now out.old) }
{
    let head = Head {
        command,
        number,
        flags,
    };
    // `as`, because no count of a frame is refused by a u32: PROTOCOL 2.8.
    match frame::write(head, payload, out) {
        Ok(count) => count as u32,
        Err(WriteError::Room { needed }) => NO_ROOM + needed as u32,
        Err(why) => REFUSED + u32::from(why.number()),
    }
}
