//! A number as decimal text: PROTOCOL 10.3. The kit's `itoa` has the digits.
ghost use Rattle.std.specs.Prelude.{◌≡◌, ◌+◌, ◌≤◌, length};
ghost use Rattle.base.specs.Stores.{PutAt};
ghost use Rattle.listing.specs.Digits.{decimal_of};

use itoa::Buffer;

// How many digits a number has.
pub(crate) fn width(n: u64) -> usize
    ensures { (result ≡ length (decimal_of n)) × (result ≤ 20) }
{
    Buffer::new().format(n).len()
}

// Puts a number's digits from a place of the buffer on; returns the place that follows them.
pub(crate) fn put_decimal(out: &mut [u8], at: usize, n: u64) -> usize
    requires { at + length (decimal_of n) ≤ length out.old }
    ensures { PutAt out.old at (decimal_of n) result out.new }
{
    let end = at + width(n);
    itoa::write_digits(n, out, end);
    end
}
