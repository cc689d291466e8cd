//! The heading, the line of each answer, and the last line: PROTOCOL 10.1 to 10.6.
//! The caller's `prefix` precedes the word of each (PROTOCOL 10.8); an answer without a line puts nothing.
//! Prefix, body and buffer stay parameters: the public calls take them one by one, and a struct of them would be made
//! for each call and taken apart in it.
ghost use Rattle.std.specs.Prelude.{◌≡◌, ◌++◌, ◌+◌, ◌≤◌, length};
ghost use Rattle.base.specs.Outcomes.{placed};
ghost use Rattle.base.specs.Writes.{Writes};
ghost use Rattle.frame.specs.Table.{row_of, finish_row_of, decided_row};
ghost use Rattle.listing.specs.Lines.{ascii, text_of, heading_text, places_at, body_columns, dashes, answer_text};
ghost use Rattle.listing.specs.Lines.{line_room, last_of, refusal_text, word_of};

use super::text::Line;
use base::{StateError, WriteError};
use frame::{Decision, Fed, FeedError, Finish, Verdict};

/// The heading: PROTOCOL 10.2.
pub fn heading(prefix: &[u8], out: &mut [u8]) -> Result<usize, WriteError>
    ensures { Writes result out.new (placed (heading_text prefix.now) out.old) }
{
    Line {
        prefix,
        word: b"kind start end cmd sn flags payload\n",
        numbers: &[],
        rest: b"",
    }
    .put(out)
}

// The word of a decided frame's line.
fn word(verdict: Verdict) -> &'static [u8]
    ensures says { result.now ≡ word_of verdict }
    ensures short { length result.now ≤ 9 }
{
    match verdict {
        Verdict::Frame => b"frame",
        Verdict::Short => b"short",
        Verdict::Long => b"long",
        Verdict::Stuff { .. } => b"stuff",
        Verdict::StuffLate { .. } => b"stufflate",
        Verdict::Cut => b"cut",
        Verdict::Sum { .. } => b"sum",
    }
}

// The line of a decided frame, and of the body that the reader holds. A struct of `prefix`, `body` and `out` would be
// no plainer: `line` and `add_line` pass them on, and here each goes another way.
fn decided_line(
    decision: Decision,
    prefix: &[u8],
    body: &[u8],
    out: &mut [u8],
) -> Result<usize, WriteError>
    ensures writes { Writes result out.new (placed (answer_text prefix.now
        (decided_row decision.verdict 0 decision.start.0 decision.end.0) body.now) out.old) }
    ensures in_bounds { length (answer_text prefix.now
        (decided_row decision.verdict 0 decision.start.0 decision.end.0) body.now)
        ≤ length prefix.now + line_room }
{
    let Decision {
        start,
        end,
        verdict,
    } = decision;
    let word = word(verdict);
    match verdict {
        Verdict::Frame => Line {
            prefix,
            word,
            numbers: &[
                start.0,
                end.0,
                u64::from(frame::command(body)),
                u64::from(frame::number(body)),
                u64::from(frame::flags(body)),
                frame::payload(body).len() as u64,
            ],
            rest: b"\n",
        }
        .put(out),
        _ => Line {
            prefix,
            word,
            numbers: &[start.0, end.0],
            rest: b" - - - -\n",
        }
        .put(out),
    }
}

/// The line of the reader's answer, and of the body that it holds; MORE, STATE and USED have none.
/// A body that does not belong to the answer is treated as if it did: PROTOCOL 12.5.
pub fn line(
    answer: Result<Fed, FeedError>,
    prefix: &[u8],
    body: &[u8],
    out: &mut [u8],
) -> Result<usize, WriteError>
    ensures writes { Writes result out.new (placed
        (answer_text prefix.now (row_of answer) body.now) out.old) }
    ensures in_bounds { length (answer_text prefix.now (row_of answer) body.now)
        ≤ length prefix.now + line_room }
{
    match answer {
        Ok(
            Fed {
                decision: Some(decision),
                ..
            },
        ) => decided_line(decision, prefix, body, out),
        Ok(Fed { decision: None, .. }) | Err(_) => Ok(0),
    }
}

/// The last line, of the answer to a finish: PROTOCOL 10.6. STATE has none.
pub fn last(
    answer: Result<Finish, StateError>,
    prefix: &[u8],
    out: &mut [u8],
) -> Result<usize, WriteError>
    ensures writes { Writes result out.new (placed
        (last_of prefix.now (finish_row_of answer)) out.old) }
    ensures in_bounds { length (last_of prefix.now (finish_row_of answer))
        ≤ length prefix.now + line_room }
{
    let (word, place) = match answer {
        Ok(Finish::Clean { consumed }) => (b"clean".as_slice(), consumed),
        Ok(Finish::Open { start, .. }) => (b"open".as_slice(), start),
        Err(StateError) => return Ok(0),
    };
    Line {
        prefix,
        word,
        numbers: &[place.0],
        rest: b"\n",
    }
    .put(out)
}

/// The line of a refusal that ends a text: its number, and the place where what is refused begins. PROTOCOL 10.11.
pub fn refusal(number: u64, place: u64, out: &mut [u8]) -> Result<usize, WriteError>
    ensures { Writes result out.new (placed (refusal_text number place) out.old) }
{
    Line {
        prefix: b"",
        word: b"refused",
        numbers: &[number, place],
        rest: b"\n",
    }
    .put(out)
}
