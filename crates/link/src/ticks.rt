//! A tick of the clock, by value or in place: PROTOCOL 9.4 to 9.8, 9.14.
ghost use Rattle.std.specs.Prelude.{◌≡◌};
ghost use Rattle.link.specs.Calls.{tick, ticked_of};

use super::MAX_REPEATS;
use super::clock::is_due;
use super::state::{Link, Waiting};
use base::StateError;

/// What the caller of a due tick has to do.
#[derive(Clone, Copy, Debug, PartialEq, Eq)]
pub enum Tick {
    /// Send the command again, under the same number.
    Again { command: u8, number: u8 },
    /// Nothing: the command had all its repeats, and waits no longer.
    GivenUp { command: u8, number: u8 },
}

impl Link {
    /// A tick at a reading of the clock, of a link that is passed and returned by value: what there is to do,
    /// if the tick is due, and the link after it.
    pub fn ticked(self, clock: u32) -> (Result<Option<Tick>, StateError>, Link)
        ensures { ticked_of result.0 result.1 ≡ tick self clock }
    {
        if !self.is_in_range() {
            return (Err(StateError), self);
        }
        let Some(waiting) = self.waiting else {
            return (Ok(None), self);
        };
        if !is_due(clock, waiting.sent) {
            return (Ok(None), self);
        }
        let (command, number) = (waiting.command, waiting.number);
        if waiting.repeats < MAX_REPEATS {
            let again = Waiting {
                sent: clock,
                repeats: waiting.repeats + 1,
                ..waiting
            };
            let link = Link {
                waiting: Some(again),
                ..self
            };
            return (Ok(Some(Tick::Again { command, number })), link);
        }
        let link = Link {
            waiting: None,
            ..self
        };
        (Ok(Some(Tick::GivenUp { command, number })), link)
    }

    /// A tick of a link in its own place: PROTOCOL 9.14.
    // Rule 9.14 names both forms, this one thin above the other (docs/DECISIONS.md, "Forms that the rules name").
    pub fn tick(&mut self, clock: u32) -> Result<Option<Tick>, StateError>
        ensures { ticked_of result self.new ≡ tick self.old clock }
    {
        let (answer, link) = self.ticked(clock);
        *self = link;
        answer
    }
}
