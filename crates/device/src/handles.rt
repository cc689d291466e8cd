//! What the box does with an answer of the reader. PROTOCOL 16.1 to 16.5.
ghost use Rattle.std.specs.Prelude.{◌≡◌};
ghost use Rattle.base.specs.Rows.{Row};
ghost use Rattle.base.specs.Outcomes.{outcome, output};
ghost use Rattle.frame.specs.Table.{row_of};
ghost use Rattle.frame.specs.Wire.{frame_limit};
ghost use Rattle.link.specs.Sending.{first_number, max_repeats};
ghost use Rattle.message.specs.Table.{reply_row_of};
ghost use Rattle.device.specs.Table.{handle_row_of, ended_row_of};
ghost use Rattle.device.specs.Handling.{is_frame, heard_of, after, handled_of, answer_of, handle_of};

use crate::answers::{HandleError, Handled};
use crate::state::Device;
use base::WriteError;
use frame::{Decision, Fed, FeedError, Verdict};
use link::Replied;
use message::Reply;

// Whether an answer of the reader is given to the link: FRAME, and no other.
fn is_frame(answer: Result<Fed, FeedError>) -> bool
    ensures { result ≡ is_frame (row_of answer) }
{
    matches!(
        answer,
        Ok(Fed {
            decision: Some(Decision {
                verdict: Verdict::Frame,
                ..
            }),
            ..
        })
    )
}

impl Device {
    // Gives a frame to the link; every other answer of the reader is not given to it. PROTOCOL 16.2.
    fn hear(&mut self, answer: Result<Fed, FeedError>, body: &[u8]) -> Option<Replied>
        ensures link { outcome (ended_row_of result) self.new.link
            ≡ heard_of first_number max_repeats (row_of answer) body.now self.old.link }
        ensures transfer { self.new.transfer ≡ self.old.transfer }
    {
        if !is_frame(answer) {
            return None;
        }
        self.link
            .receive(frame::command(body), frame::number(body))
            .ok()
    }

    // The reply of `message` stands, or a 19, 1D or 1F that it hands over goes to the transfer. PROTOCOL 16.3, 16.4.
    // Variant by variant, and no `From<Reply>`: those three have no counterpart in `Handled`.
    #[tactic(auto, unfolding(crate::specs::Handling::answer_of))]
    fn answer(
        &mut self,
        reply: Result<Reply, WriteError>,
        body: &[u8],
        clock: u32,
        piece: u16,
        buffer: &mut [u8],
        out: &mut [u8],
    ) -> Result<Handled, HandleError>
        ensures { (ended : Row) → after (output (handle_row_of result) out.new) (outcome ended self.new.link)
            self.new.transfer buffer.new
            ≡ answer_of frame_limit first_number max_repeats (output (reply_row_of reply) out.old)
            (outcome ended self.old.link) body.now self.old.transfer clock piece buffer.old }
    {
        let payload = frame::payload(body);
        Ok(match reply? {
            Reply::BeginWanted { number } => Handled::from(
                self.transfer
                    .begin(&mut self.link, clock, number, payload, piece, buffer, out)?,
            ),
            Reply::StoreWanted { number } => {
                let flags = frame::flags(body);
                Handled::from(self.transfer.store(number, flags, payload, buffer, out)?)
            }
            Reply::StopWanted { number } => Handled::from(
                self.transfer.stop(number, payload, out)?,
            ),
            Reply::Nothing => Handled::Nothing,
            Reply::InformationWanted { number } => Handled::InformationWanted { number },
            Reply::StatusWanted { number } => Handled::StatusWanted { number },
            Reply::Acknowledged { count } => Handled::Acknowledged { count },
            Reply::Rejected { count, code, cause } => Handled::Rejected { count, code, cause },
        })
    }

    /// An answer of the reader, by the body that the reader then holds: the link receives a frame, and the reply, also
    /// that of `transfer`, is at the front of the output. Beside the answer stands the wait that the frame ended: a
    /// reply without room does not undo what the link received.
    // Clock, piece size, buffer and output come anew with each call: a struct of them would be made and taken apart for
    // one call.
    #[tactic(auto, unfolding(crate::specs::Handling::handle_of))]
    pub fn handle(
        &mut self,
        answer: Result<Fed, FeedError>,
        body: &[u8],
        clock: u32,
        piece: u16,
        buffer: &mut [u8],
        out: &mut [u8],
    ) -> (Result<Handled, HandleError>, Option<Replied>)
        ensures { handled_of result.0 result.1 self.new buffer.new out.new
            ≡ handle_of frame_limit first_number max_repeats (row_of answer) body.now self.old.transfer
            self.old.link clock piece buffer.old out.old }
    {
        if !self.link.is_in_range() || !self.transfer.is_in_range() {
            return (Err(HandleError::State), None);
        }
        let ended = self.hear(answer, body);
        let reply = message::reply(answer, body, out);
        (self.answer(reply, body, clock, piece, buffer, out), ended)
    }
}
