//! The replies of the box: to a received frame, and to a frame with a wrong sum. PROTOCOL 8.1 to 8.13.
ghost use Rattle.std.specs.Prelude.{◌≡◌, [], Err};
ghost use Rattle.base.specs.Outcomes.{output};
ghost use Rattle.frame.specs.Table.{row_of};
ghost use Rattle.frame.specs.Wire.{frame_limit};
ghost use Rattle.frame.specs.Calls.{write_of};
ghost use Rattle.message.specs.Messages.{message_in};
ghost use Rattle.message.specs.Table.{reading_of, cause_number, reply_row_of};
ghost use Rattle.message.specs.Owed.{owed_for, handed, owed_after, code_for};
ghost use Rattle.message.specs.Replies.{reject_of, reply_read_of, reply_frame_of, reply_of};

use super::answers::Reply;
use super::kind::{Cause, Owed, Sender, profile_of};
use super::reader::{ReadError, Reading, read};
use super::values::{Code, Message};
use base::WriteError;
use frame::{Fed, FeedError, Head, Verdict};

// The reply owed to a message without fault.
fn owed_for(message: Message) -> Owed
    ensures { result ≡ owed_for (message_in message) }
{
    match message {
        Message::Query => Owed::AskStatus,
        _ => profile_of(message.command()).owed,
    }
}

// Whether a command that is owed this is handed to the caller whatever its payload is: PROTOCOL 8.9.
fn is_handed(owed: Owed) -> bool
    ensures { result ≡ handed owed }
{
    matches!(owed, Owed::AskBegin | Owed::AskStore | Owed::AskStop)
}

// A payload that is no message is rejected for the refusal of its reading: PROTOCOL 8.6, 8.8.
impl From<ReadError> for Cause {
    ghost from_gives = { λ refusal cause. cause_number cause ≡ (reading_of (Err refusal)).row.number };

    fn from(refusal: ReadError) -> Self {
        match refusal {
            ReadError::Command => Cause::Command,
            ReadError::Size => Cause::Size,
            ReadError::Field => Cause::Field,
        }
    }
}

// The reply owed to a frame, by its reading. A command of the box is rejected whatever its payload is: PROTOCOL 8.7.
// 19, 1D and 1F are handed to the caller whatever their payload is: PROTOCOL 8.9.
fn owed_after(command: u8, reading: Result<Reading, ReadError>) -> Owed
    ensures { result ≡ owed_after command (reading_of reading).row }
{
    let profile = profile_of(command);
    if profile.sender == Sender::Box {
        return Owed::Reject {
            cause: Cause::BoxCommand,
        };
    }
    if is_handed(profile.owed) {
        return profile.owed;
    }
    match reading {
        Ok(Reading { message, .. }) => owed_for(message),
        Err(refusal) => Owed::Reject {
            cause: refusal.into(),
        },
    }
}

// The head of a reply: the received sequence number, and no flags.
fn head(command: u8, number: u8) -> Head
    ensures { result ≡ record { command = command; number = number; flags = 0 } }
{
    Head {
        command,
        number,
        flags: 0,
    }
}

// A command without payload; or the refusal of the frame writer.
fn acknowledge(command: u8, number: u8, out: &mut [u8]) -> Result<Reply, WriteError>
    ensures { output (reply_row_of result) out.new
        ≡ write_of frame_limit command number 0 [] out.old }
{
    let count = frame::write(head(command, number), &[], out)?;
    Ok(Reply::Acknowledged { count })
}

// The code of a rejection: PROTOCOL 8.5 to 8.8.
impl From<Cause> for Code {
    ghost from_gives = { λ cause code. code ≡ code_for cause };

    fn from(cause: Cause) -> Self {
        match cause {
            Cause::Sum => Code::Sum,
            Cause::Command | Cause::BoxCommand => Code::Command,
            Cause::Size | Cause::Field => Code::Other,
        }
    }
}

// 12 with a code; or the refusal of the frame writer.
fn reject(cause: Cause, number: u8, out: &mut [u8]) -> Result<Reply, WriteError>
    ensures { output (reply_row_of result) out.new
        ≡ reject_of frame_limit cause number out.old }
{
    let code = Code::from(cause);
    let count = frame::write(head(0x12, number), &[code.into()], out)?;
    Ok(Reply::Rejected { count, code, cause })
}

/// The reply to a frame whose payload was read: a frame at the front of the caller's buffer, what the caller is asked
/// to send, or nothing. Where a reply does not fit, ROOM with its size, and the buffer is unchanged. PROTOCOL 8.2 to
/// 8.10.
pub fn reply_reading(
    command: u8,
    number: u8,
    reading: Result<Reading, ReadError>,
    out: &mut [u8],
) -> Result<Reply, WriteError>
    ensures { output (reply_row_of result) out.new
        ≡ reply_read_of frame_limit command number (reading_of reading).row out.old }
{
    match owed_after(command, reading) {
        Owed::Nothing => Ok(Reply::Nothing),
        Owed::AskInformation => Ok(Reply::InformationWanted { number }),
        Owed::AskStatus => Ok(Reply::StatusWanted { number }),
        Owed::AskBegin => Ok(Reply::BeginWanted { number }),
        Owed::AskStore => Ok(Reply::StoreWanted { number }),
        Owed::AskStop => Ok(Reply::StopWanted { number }),
        Owed::Acknowledge { command } => acknowledge(command, number, out),
        Owed::Reject { cause } => reject(cause, number, out),
    }
}

/// The same of a frame whose payload is not read yet.
pub fn reply_frame(
    command: u8,
    number: u8,
    payload: &[u8],
    out: &mut [u8],
) -> Result<Reply, WriteError>
    ensures { output (reply_row_of result) out.new
        ≡ reply_frame_of frame_limit command number payload.now out.old }
{
    reply_reading(command, number, read(command, payload), out)
}

/// The reply to an answer of the reader, by the body that the reader then holds: that to a received frame, a rejection
/// with code 1 where the sum is wrong, and nothing to any other answer. PROTOCOL 8.5, 8.12.
pub fn reply(
    answer: Result<Fed, FeedError>,
    body: &[u8],
    out: &mut [u8],
) -> Result<Reply, WriteError>
    ensures { output (reply_row_of result) out.new
        ≡ reply_of frame_limit (row_of answer) body.now out.old }
{
    let decision = answer.ok().and_then(|fed| fed.decision);
    match decision.map(|decision| decision.verdict) {
        Some(Verdict::Frame) => reply_frame(
            frame::command(body),
            frame::number(body),
            frame::payload(body),
            out,
        ),
        Some(Verdict::Sum { .. }) => reject(Cause::Sum, frame::number(body), out),
        _ => Ok(Reply::Nothing),
    }
}
