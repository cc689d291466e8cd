//! What the box does with an answer of the reader: `device`. What waits in the link was sent just now. C passes records
//! as their numbers, one by one.
ghost use Rattle.std.specs.Prelude.{length};
ghost use Rattle.frame.specs.Wire.{frame_limit};
ghost use Rattle.frame.specs.Table.{decided_row};
ghost use Rattle.frame.specs.declared.scan.Verdict.TheVariants.{Frame};
ghost use Rattle.link.specs.Sending.{first_number, max_repeats};
ghost use Rattle.device.specs.Handling.{handle_of};
ghost use Rattle.stack_driver.specs.Numbered.{NumberedAfter};
ghost use Rattle.stack_driver.specs.Records.{link_from, transfer_from};
ghost use Rattle.stack_driver.specs.Turns.{turn_of};

use super::numbers::of_handle;
use super::records::{link_from, transfer_from};
use device::Device;
use frame::{Decision, Fed, Reader, Verdict, WirePlace};

/// A FRAME whose body the caller holds.
#[unsafe(no_mangle)]
pub extern "C" fn stack_handle(
    body: &[u8],
    size: u32,
    stored: u16,
    next: u8,
    waiting: u8,
    clock: u32,
    piece: u16,
    buffer: &mut [u8],
    out: &mut [u8],
) -> u32
    ensures { NumberedAfter result buffer.new out.new
        (handle_of frame_limit first_number max_repeats (decided_row Frame (length body.now) 0 0)
        body.now (transfer_from size piece stored) (link_from next waiting clock 0) clock piece
        buffer.old out.old) }
{
    let decision = Decision {
        start: WirePlace(0),
        end: WirePlace(0),
        verdict: Verdict::Frame,
    };
    let frame = Fed {
        count: body.len(),
        decision: Some(decision),
    };
    let mut device = Device {
        link: link_from(next, waiting, clock, 0),
        transfer: transfer_from(size, piece, stored),
    };
    let (answer, _) = device.handle(Ok(frame), body, clock, piece, buffer, out);
    of_handle(answer)
}

/// One turn of a main loop that holds the reader: a feed of a fresh one, and what a new box does with the answer.
#[unsafe(no_mangle)]
pub extern "C" fn stack_turn(
    bytes: &[u8],
    clock: u32,
    piece: u16,
    buffer: &mut [u8],
    out: &mut [u8],
) -> u32
    ensures { NumberedAfter result buffer.new out.new (turn_of frame_limit first_number max_repeats
        bytes.now clock piece buffer.old out.old) }
{
    let mut reader = Reader::new();
    let mut device = Device::new();
    let fed = reader.feed(bytes);
    let (answer, _) = device.handle(fed, &reader.body, clock, piece, buffer, out);
    of_handle(answer)
}
