//! How a call that writes came out, and bytes written whole or not at all. PROTOCOL 6.3, 6.4, 6.7, 6.12.
ghost use Rattle.std.specs.Prelude.{◌≡◌, ◌++◌};
ghost use Rattle.base.specs.Outcomes.{written_in, needed_in, placed};
ghost use Rattle.base.specs.Rows.{Row};
ghost use Rattle.base.specs.Writes.{unwritten_row_of, write_row_of, Writes};

use super::puts::put_bytes;

/// Why nothing was written. The caller's buffer is unchanged.
#[derive(Clone, Copy, Debug, PartialEq, Eq)]
pub enum WriteError {
    /// PAYLOAD 21: the payload is longer than a frame, or a record, can have.
    Payload,
    /// ROOM 22: the buffer is smaller than what would be written, which has `needed` bytes.
    Room { needed: usize },
}

/// STATE 17: a field of a record that the caller passed is out of its range. Nothing is done.
#[derive(Clone, Copy, Debug, PartialEq, Eq)]
pub struct StateError;

impl WriteError {
    /// Its number in the table of answers: PROTOCOL 12.4.
    // A method, and no `From`: the number is the answer's in the table, and no value that another type would take.
    pub fn number(self) -> u8
        ensures { result ≡ (unwritten_row_of self).number }
    {
        match self {
            WriteError::Payload => 21,
            WriteError::Room { .. } => 22,
        }
    }
}

/// The bytes that a call wrote: none where it is refused.
pub fn count(written: Result<usize, WriteError>) -> usize
    ensures { result ≡ written_in (write_row_of written) }
{
    written.unwrap_or(0)
}

/// The room that a call needs, where its answer is ROOM; otherwise 0.
pub fn needed(written: Result<usize, WriteError>) -> usize
    ensures { result ≡ needed_in (write_row_of written) }
{
    match written {
        Err(WriteError::Room { needed }) => needed,
        Err(WriteError::Payload) => 0,
        Ok(_) => 0,
    }
}

/// Writes two pieces at the front of the buffer, one after the other, or refuses and leaves the buffer as it was.
pub fn write_both(first: &[u8], second: &[u8], out: &mut [u8]) -> Result<usize, WriteError>
    ensures { Writes result out.new
        (placed (first.now ++ second.now) out.old) }
{
    let needed = first.len() + second.len();
    if out.len() < needed {
        return Err(WriteError::Room { needed });
    }
    let at = put_bytes(out, 0, first);
    Ok(put_bytes(out, at, second))
}
