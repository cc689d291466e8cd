//! The number of each answer. PROTOCOL 12.4. C takes an answer as one number, so each has a match here.
ghost use Rattle.std.specs.Prelude.{◌≡◌, Err};
ghost use Rattle.device.specs.Table.{handle_row_of};
ghost use Rattle.frame.specs.Table.{verdict_number, row_of};
ghost use Rattle.link.specs.Table.{receive_row_of};
ghost use Rattle.message.specs.Table.{reply_row_of, send_row_of};
ghost use Rattle.transfer.specs.Table.{arrive_row_of, cancel_row_of};

use base::WriteError;
use device::{HandleError, Handled};
use frame::{Fed, FeedError, Verdict};
use link::{ReceiveError, Replied};
use message::{Reply, SendError};
use transfer::{Arrival, ArriveError};

// Of what a byte decides.
fn of_verdict(verdict: Verdict) -> u32
    ensures { result ≡ verdict_number verdict }
{
    match verdict {
        Verdict::Frame => 1,
        Verdict::Short => 11,
        Verdict::Long => 12,
        Verdict::Stuff { .. } => 13,
        Verdict::StuffLate { .. } => 19,
        Verdict::Cut => 14,
        Verdict::Sum { .. } => 15,
    }
}

// Of an answer of the reader.
pub(crate) fn of_feed(answer: Result<Fed, FeedError>) -> u32
    ensures { result ≡ (row_of answer).number }
{
    match answer {
        Ok(fed) => match fed.decision {
            None => 0,
            Some(decision) => of_verdict(decision.verdict),
        },
        Err(FeedError::State) => 17,
        Err(FeedError::Used) => 18,
    }
}

// Of a message that was to be written.
pub(crate) fn of_send(answer: Result<usize, SendError>) -> u32
    ensures { result ≡ (send_row_of answer).number }
{
    match answer {
        Ok(_) => 0,
        Err(SendError::Unwritten(why)) => u32::from(why.number()),
        Err(SendError::Command) => 31,
        Err(SendError::Size) => 32,
        Err(SendError::Field) => 33,
    }
}

// Of a reply.
pub(crate) fn of_reply(answer: Result<Reply, WriteError>) -> u32
    ensures { result ≡ (reply_row_of answer).number }
{
    match answer {
        Ok(_) => 0,
        Err(why) => u32::from(why.number()),
    }
}

// Of a frame that the link received.
pub(crate) fn of_receive(answer: Result<Replied, ReceiveError>) -> u32
    ensures { result ≡ (receive_row_of answer).number }
{
    match answer {
        Ok(_) => 0,
        Err(ReceiveError::State) => 17,
        Err(ReceiveError::Stray) => 43,
    }
}

// Of a call of the transfer that did nothing.
fn of_error(error: ArriveError) -> u32
    ensures { result ≡ (arrive_row_of (Err error)).number }
{
    match error {
        ArriveError::State => 17,
        ArriveError::Busy => 41,
        ArriveError::Unwritten(why) => u32::from(why.number()),
    }
}

// Of a received 19, 1D or 1F.
pub(crate) fn of_arrive(answer: Result<Arrival, ArriveError>) -> u32
    ensures { result ≡ (arrive_row_of answer).number }
{
    match answer {
        Ok(Arrival::Refused { refusal, .. }) => u32::from(refusal.number()),
        Ok(_) => 0,
        Err(error) => of_error(error),
    }
}

// Of a cancel.
pub(crate) fn of_cancel(answer: Result<usize, ArriveError>) -> u32
    ensures { result ≡ (cancel_row_of answer).number }
{
    match answer {
        Ok(_) => 0,
        Err(error) => of_error(error),
    }
}

// Of what the box did with a frame.
pub(crate) fn of_handle(answer: Result<Handled, HandleError>) -> u32
    ensures { result ≡ (handle_row_of answer).number }
{
    match answer {
        Ok(Handled::Refused { refusal, .. }) => u32::from(refusal.number()),
        Ok(_) => 0,
        Err(HandleError::State) => 17,
        Err(HandleError::Busy) => 41,
        Err(HandleError::Unwritten(why)) => u32::from(why.number()),
    }
}
