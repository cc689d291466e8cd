//! A 1F was received: the module cancels. PROTOCOL 15.8.
ghost use Rattle.std.specs.Prelude.{◌≡◌};
ghost use Rattle.frame.specs.Wire.{frame_limit};
ghost use Rattle.transfer.specs.Calls.{arrived_of, stop_of};

use super::answers::{Arrival, ArriveError, Refusal};
use super::state::Transfer;
use super::writes::{reject, write_empty};

impl Transfer {
    /// A 1F was received, under a number, with a payload: where it is accepted, there is no transfer any more, and 20
    /// is at the front of the output.
    pub fn stop(
        &mut self,
        number: u8,
        payload: &[u8],
        out: &mut [u8],
    ) -> Result<Arrival, ArriveError>
        ensures { arrived_of result self.new out.new
            ≡ stop_of frame_limit self.old number payload.now out.old }
    {
        if !self.is_in_range() {
            return Err(ArriveError::State);
        }
        // The only fault of a 1F is a payload.
        if message::read(0x1F, payload).is_err() {
            return reject(Refusal::Size, number, out);
        }
        let count = write_empty(0x20, number, out)?;
        self.open = None;
        Ok(Arrival::Stopped { count })
    }
}
