//! Bytes at a place, and big-endian numbers of two and four bytes. A missing byte reads as 0. PROTOCOL 1.4, 2.11.
ghost use Rattle.std.specs.Prelude.{◌≡◌, [], get_or};
ghost use Rattle.base.specs.Numbers.{two_at, four_at, two, four};

use super::slices::rest;

/// The byte at a place, or 0 beyond the end.
pub fn byte_at(bytes: &[u8], at: usize) -> u8
    ensures { result ≡ get_or bytes.now at 0 }
{
    bytes.get(at).copied().unwrap_or(0)
}

// The number of the first two bytes.
fn front(bytes: &[u8]) -> u16
    ensures { result ≡ two_at bytes.now 0 }
{
    u16::from_be_bytes([byte_at(bytes, 0), byte_at(bytes, 1)])
}

// Twins that stay, since one for both widths would be no plainer: each is a line above another or above std, and the
// claims `worked_numbers`, `numbers_spelled` and `read_back` are about each.

/// The number of two bytes at a place.
pub fn two_at(bytes: &[u8], at: usize) -> u16
    ensures { result ≡ two_at bytes.now at }
{
    front(rest(bytes, at))
}

/// The number of four bytes at a place.
pub fn four_at(bytes: &[u8], at: usize) -> u32
    ensures { result ≡ four_at bytes.now at }
{
    let here = rest(bytes, at);
    u32::from(front(here)) * 65536 + u32::from(two_at(here, 2))
}

/// A number in two bytes.
pub fn two_bytes(n: u16) -> [u8; 2]
    ensures { result ≡ two n [] }
{
    n.to_be_bytes()
}

/// A number in four bytes.
pub fn four_bytes(number: u32) -> [u8; 4]
    ensures { result ≡ four number [] }
{
    number.to_be_bytes()
}
