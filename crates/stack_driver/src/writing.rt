//! What the box writes: messages of its own, and replies.
ghost use Rattle.std.specs.Prelude.{◌≡◌};
ghost use Rattle.frame.specs.Wire.{frame_limit};
ghost use Rattle.message.specs.Writing.{send_of};
ghost use Rattle.message.specs.Replies.{reply_frame_of};
ghost use Rattle.stack_driver.specs.Numbered.{Numbered};
ghost use Rattle.stack_driver.specs.Records.{status_of, information_of};

use super::numbers::{of_reply, of_send};
use message::{Extra, Message, Mode, Status};

// The status of a counter that gathers, as the reply 04, or as a report for every other command.
fn status_message(command: u8, volume: u16, leaf: u32) -> Message
    ensures { result ≡ status_of command volume leaf }
{
    let status = Status {
        feeding: true,
        lamp: false,
        mode: Mode::Gather,
        volume,
        leaf,
        double: false,
        skipped: false,
        fault: false,
    };
    if command == 0x04 {
        return Message::Status { status };
    }
    Message::Report { status }
}

/// Such a message.
#[unsafe(no_mangle)]
pub extern "C" fn stack_status(
    command: u8,
    volume: u16,
    leaf: u32,
    opaque: &[u8],
    number: u8,
    out: &mut [u8],
) -> u32
    ensures { Numbered result out.new
        (send_of frame_limit (status_of command volume leaf) number 0 opaque.now out.old) }
{
    let message = status_message(command, volume, leaf);
    of_send(message::write(message, opaque, number, 0, out))
}

/// The device information, without attributes.
#[unsafe(no_mangle)]
pub extern "C" fn stack_information(timeout: u16, opaque: &[u8], number: u8, out: &mut [u8]) -> u32
    ensures { Numbered result out.new
        (send_of frame_limit (information_of timeout) number 0 opaque.now out.old) }
{
    let message = Message::Information {
        timeout,
        extra: Extra::Absent,
    };
    of_send(message::write(message, opaque, number, 0, out))
}

/// The reply to a received frame.
#[unsafe(no_mangle)]
pub extern "C" fn stack_reply(command: u8, number: u8, payload: &[u8], out: &mut [u8]) -> u32
    ensures { Numbered result out.new
        (reply_frame_of frame_limit command number payload.now out.old) }
{
    of_reply(message::reply_frame(command, number, payload, out))
}
