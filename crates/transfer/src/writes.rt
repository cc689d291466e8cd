//! What the calls write: a reply under the number received, a 12 with code 3, and the pair 1A and 1B. PROTOCOL 15.6 to
//! 15.9. Each is written whole or not at all.
ghost use Rattle.std.specs.Prelude.{◌≡◌, [], ◌+◌, ◌≤◌, ◌^◌, length, take, drop};
ghost use Rattle.base.specs.Outcomes.{output, needed_in};
ghost use Rattle.base.specs.Writes.{unwritten_row_of, Writes};
ghost use Rattle.frame.specs.Wire.{frame_limit, frame_of};
ghost use Rattle.frame.specs.Calls.{write_of};
ghost use Rattle.transfer.specs.Table.{refusal_number, denial_number, arrive_row_of, pair_row_of};
ghost use Rattle.transfer.specs.Writing.{rejection_of, refused_of, after, with_first, ready_payload, pair_of};

use super::answers::{Arrival, ArriveError, Denial, Refusal};
use base::WriteError;
use frame::Head;
use message::{Code, Message, SendError};

// Two frames that were written: their size together, and the place where the second begins.
#[derive(Clone, Copy, Debug, PartialEq, Eq)]
pub(crate) struct Pair {
    pub count: usize,
    pub ready: usize,
}

// A command without payload, with flags 0.
pub(crate) fn write_empty(command: u8, number: u8, out: &mut [u8]) -> Result<usize, WriteError>
    ensures { Writes result out.new (write_of frame_limit command number 0 [] out.old) }
{
    let head = Head {
        command,
        number,
        flags: 0,
    };
    frame::write(head, &[], out)
}

// A 12 with code 3, under the number received; the answer has the refusal.
pub(crate) fn reject(refusal: Refusal, number: u8, out: &mut [u8]) -> Result<Arrival, ArriveError>
    ensures { output (arrive_row_of result) out.new
        ≡ rejection_of frame_limit (refusal_number refusal) number out.old }
{
    let head = Head {
        command: 0x12,
        number,
        flags: 0,
    };
    let count = frame::write(head, &[Code::Other.into()], out)?;
    Ok(Arrival::Refused { count, refusal })
}

// What a call writes that its tests refuse: a 12, or nothing after STATE and BUSY.
pub(crate) fn refuse(denial: Denial, number: u8, out: &mut [u8]) -> Result<Arrival, ArriveError>
    ensures { output (arrive_row_of result) out.new
        ≡ refused_of frame_limit (denial_number denial) number out.old }
{
    match denial {
        Denial::Refused(refusal) => reject(refusal, number, out),
        Denial::State => Err(ArriveError::State),
        Denial::Busy => Err(ArriveError::Busy),
    }
}

// The size of a 1A on the wire: the writer is asked, with no room at all.
fn accept_size(number: u8) -> usize
    ensures { result ≡ length (frame_of 0x1A number 0 []) }
{
    base::needed(write_empty(0x1A, number, &mut []))
}

// The 1B under a number of the link, in what is left of an output from a place on. A check code that no count can name
// makes a payload that is too long.
fn write_ready(
    piece: u16,
    code: &[u8],
    number: u8,
    out: &mut [u8],
    from: usize,
) -> Result<usize, WriteError>
    requires { from ≤ length out.old }
    ensures { Writes result out.new (after (take from out.old)
        (write_of frame_limit 0x1B number 0 (ready_payload piece code.now) (drop from out.old))) }
{
    // Not `?`: only the frame writer's refusal is passed on, and the three others are one case.
    match message::write(Message::Ready { piece }, code, number, 0, &mut out[from..]) {
        Ok(count) => Ok(count),
        Err(error) => Err(match error {
            SendError::Unwritten(why) => why,
            SendError::Command | SendError::Size | SendError::Field => WriteError::Payload,
        }),
    }
}

// Why neither of two frames is written, where the second was refused: ROOM says what both need.
fn with_first(why: WriteError, first: usize) -> WriteError
    requires { first + needed_in (unwritten_row_of why) ≤ 2 ^ 20 }
    ensures { unwritten_row_of result ≡ with_first first (unwritten_row_of why) }
{
    match why {
        WriteError::Payload => why,
        WriteError::Room { needed } => WriteError::Room {
            needed: first + needed,
        },
    }
}

// 1A under the number received, and then 1B under the link's next number. The 1B is written first, after the room for
// the 1A: where it is refused, nothing is written.
pub(crate) fn write_pair(
    number: u8,
    next: u8,
    piece: u16,
    code: &[u8],
    out: &mut [u8],
) -> Result<Pair, WriteError>
    ensures { output (pair_row_of result) out.new
        ≡ pair_of frame_limit number next piece code.now out.old }
{
    let ready = accept_size(number);
    let from = ready.min(out.len());
    // Not `?`: the refusal's size has that of the 1A added.
    match write_ready(piece, code, next, out, from) {
        Ok(count) => {
            // It has the room.
            let _ = write_empty(0x1A, number, out);
            Ok(Pair {
                count: ready + count,
                ready,
            })
        }
        Err(why) => Err(with_first(why, ready)),
    }
}
