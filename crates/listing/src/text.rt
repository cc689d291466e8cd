//! A line's text: the caller's prefix, the word, decimal numbers and the line's rest, in this order.
ghost use Rattle.std.specs.Prelude.{◌≡◌, ◌+◌, ◌*◌, ◌≤◌, length};
ghost use Rattle.base.specs.Stores.{PutAt};
ghost use Rattle.base.specs.Outcomes.{placed};
ghost use Rattle.base.specs.Writes.{Writes};
ghost use Rattle.listing.specs.Lines.{columns_of, text_of};

use super::decimal::{put_decimal, width};
use base::{WriteError, put_bytes};

// A line, whose parts but for the prefix are short. It is named part by part where it is made.
#[derive(Clone, Copy)]
pub(crate) struct Line<'a> {
    pub(crate) prefix: &'a [u8],
    pub(crate) word: &'a [u8],
    pub(crate) numbers: &'a [u64],
    pub(crate) rest: &'a [u8],
    ghost short_word: { length word.now ≤ 64 },
    ghost few_numbers: { length numbers.now ≤ 16 },
    ghost short_rest: { length rest.now ≤ 64 },
}

// How long numbers are as columns.
fn columns_width(numbers: &[u64]) -> usize
    requires { length numbers.now ≤ 16 }
    ensures { (result ≡ length (columns_of numbers.now)) × (result ≤ 21 * length numbers.now) }
{
    let mut count = 0;
    for number in numbers {
        count += 1 + width(*number);
    }
    count
}

// Puts numbers as columns from a place of the buffer on; returns the place that follows them.
fn put_columns(out: &mut [u8], at: usize, numbers: &[u64]) -> usize
    requires { at + length (columns_of numbers.now) ≤ length out.old }
    ensures { PutAt out.old at (columns_of numbers.now) result out.new }
{
    let mut next = at;
    for number in numbers {
        out[next] = b' ';
        next = put_decimal(out, next + 1, *number);
    }
    next
}

impl Line<'_> {
    // Puts the line at the front of the buffer, or refuses and leaves the buffer as it was.
    pub(crate) fn put(&self, out: &mut [u8]) -> Result<usize, WriteError>
        ensures writes { Writes result out.new (placed (text_of self.now.prefix.now
            self.now.word.now self.now.numbers.now self.now.rest.now) out.old) }
        ensures in_bounds { length (text_of self.now.prefix.now
            self.now.word.now self.now.numbers.now self.now.rest.now)
            ≤ length self.now.prefix.now + length self.now.word.now
            + 21 * length self.now.numbers.now + length self.now.rest.now }
    {
        let size = self.prefix.len()
            + self.word.len()
            + columns_width(self.numbers)
            + self.rest.len();
        if out.len() < size {
            return Err(WriteError::Room { needed: size });
        }
        let at_word = put_bytes(out, 0, self.prefix);
        let after_word = put_bytes(out, at_word, self.word);
        let after_numbers = put_columns(out, after_word, self.numbers);
        Ok(put_bytes(out, after_numbers, self.rest))
    }
}
