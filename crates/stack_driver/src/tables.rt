//! A counting table received: the calls of `transfer`. What waits in the link was sent just now.
ghost use Rattle.std.specs.Prelude.{length};
ghost use Rattle.frame.specs.Wire.{frame_limit};
ghost use Rattle.link.specs.Sending.{first_number, max_repeats};
ghost use Rattle.transfer.specs.Calls.{begin_of, store_of, stop_of, cancel_of};
ghost use Rattle.stack_driver.specs.Numbered.{Numbered, NumberedHeld, of_left};
ghost use Rattle.stack_driver.specs.Records.{link_from, transfer_from};

use super::numbers::{of_arrive, of_cancel};
use super::records::{link_from, transfer_from};

/// A 19, of which pieces of `wanted` bytes are asked for.
#[unsafe(no_mangle)]
pub extern "C" fn stack_begin(
    size: u32,
    piece: u16,
    stored: u16,
    next: u8,
    waiting: u8,
    clock: u32,
    number: u8,
    payload: &[u8],
    wanted: u16,
    buffer: &[u8],
    out: &mut [u8],
) -> u32
    ensures { Numbered result out.new (of_left (begin_of frame_limit first_number max_repeats
        (transfer_from size piece stored) (link_from next waiting clock 0) clock number payload.now wanted
        (length buffer.now) out.old)) }
{
    let mut transfer = transfer_from(size, piece, stored);
    let mut link = link_from(next, waiting, clock, 0);
    of_arrive(transfer.begin(&mut link, clock, number, payload, wanted, buffer, out))
}

/// A 1D.
#[unsafe(no_mangle)]
pub extern "C" fn stack_store(
    size: u32,
    piece: u16,
    stored: u16,
    number: u8,
    flags: u16,
    payload: &[u8],
    buffer: &mut [u8],
    out: &mut [u8],
) -> u32
    ensures { NumberedHeld result buffer.new out.new (store_of frame_limit
        (transfer_from size piece stored) number flags payload.now buffer.old
        out.old) }
{
    let mut transfer = transfer_from(size, piece, stored);
    of_arrive(transfer.store(number, flags, payload, buffer, out))
}

/// A 1F.
#[unsafe(no_mangle)]
pub extern "C" fn stack_stop(
    size: u32,
    piece: u16,
    stored: u16,
    number: u8,
    payload: &[u8],
    out: &mut [u8],
) -> u32
    ensures { Numbered result out.new (of_left (stop_of frame_limit (transfer_from size piece stored) number
        payload.now out.old)) }
{
    let mut transfer = transfer_from(size, piece, stored);
    of_arrive(transfer.stop(number, payload, out))
}

/// A 27 of the box.
#[unsafe(no_mangle)]
pub extern "C" fn stack_cancel(
    size: u32,
    piece: u16,
    stored: u16,
    next: u8,
    waiting: u8,
    clock: u32,
    out: &mut [u8],
) -> u32
    ensures { Numbered result out.new (of_left (cancel_of frame_limit first_number max_repeats
        (transfer_from size piece stored) (link_from next waiting clock 0) clock out.old)) }
{
    let mut transfer = transfer_from(size, piece, stored);
    let mut link = link_from(next, waiting, clock, 0);
    of_cancel(transfer.cancel(&mut link, clock, out))
}
