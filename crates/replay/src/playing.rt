//! The loop over the records of a window: each step's text follows the previous ones. PROTOCOL 14.2 to 14.4.
ghost use Rattle.std.specs.Prelude.{◌≡◌, ◌≤◌, length};
ghost use Rattle.base.specs.Outcomes.{placed};
ghost use Rattle.base.specs.Runs.{left_by};
ghost use Rattle.base.specs.Writes.{Writes};
ghost use Rattle.frame.specs.Wire.{frame_limit};
ghost use Rattle.replay.specs.Lines.{replay_heading};
ghost use Rattle.replay.specs.State.{state_of};
ghost use Rattle.replay.specs.Playing.{loop_of, play_of, left_of};

use super::state::Replay;
use super::steps::Stop;
use base::WriteError;

/// What a play did: the bytes used, the bytes of text at the front of the buffer, and why it stopped. It is no `Listed`
/// of the listing, whose stops are others: a type for both, generic over the stop, would be no plainer.
#[derive(Clone, Copy, Debug, PartialEq, Eq)]
pub struct Played {
    pub used: usize,
    pub written: usize,
    pub stop: Stop,
}

/// The heading: PROTOCOL 14.2.
pub fn heading(out: &mut [u8]) -> Result<usize, WriteError>
    ensures { Writes result out.new (placed replay_heading out.old) }
{
    listing::heading(b"dir ", out)
}

impl Replay {
    // Step after step, until one is the last. How many steps there are is not known before, so the loop is left by
    // `break`.
    fn play_all(&mut self, bytes: &[u8], out: &mut [u8]) -> Played
        ensures { left_of (result, self.new) out.new ≡ left_by (loop_of frame_limit
            (state_of self.old) bytes.now (length out.old)) out.old }
    {
        let mut used = 0;
        let mut written = 0;
        let stop = loop {
            let step = self.play_one(&bytes[used..], &mut out[written..]);
            used += step.used;
            written += step.written;
            if let Some(stop) = step.stop {
                break stop;
            }
        };
        Played {
            used,
            written,
            stop,
        }
    }

    /// Lists the complete records at the front of what is left of a capture. What is not used comes again, with more
    /// bytes after it. Where it stops for room, the caller writes the text and calls again.
    pub fn play(&mut self, bytes: &[u8], out: &mut [u8]) -> Played
        ensures leaves { left_of (result, self.new) out.new ≡ left_by (play_of frame_limit
            (state_of self.old) bytes.now (length out.old)) out.old }
        ensures within { result.used ≤ length bytes.now }
    {
        if !self.is_in_range() {
            return Played {
                used: 0,
                written: 0,
                stop: Stop::State,
            };
        }
        self.play_all(bytes, out)
    }
}
