//! Numbers and bits of a payload. PROTOCOL 1.4.
ghost use Rattle.std.specs.Prelude.{◌≡◌, ◌^◌, ◌<◌, ◌≤◌};
ghost use Rattle.message.specs.Numbers.{num, bit, eight_at};

// Eight bytes at a place, big-endian. A byte that is missing reads as 0. No width is a parameter: the three definitions
// of `eight_at` and of base's `two_at` and `four_at` state one width each, and one caller has eight bytes.
pub(crate) fn eight_at(bytes: &[u8], at: usize) -> u64
    requires { at ≤ 2 ^ 20 }
    ensures { result ≡ eight_at bytes.now at }
{
    u64::from(base::four_at(bytes, at)) << 32 | u64::from(base::four_at(bytes, at + 4))
}

// Whether a bit is set; bit 0 is the lowest.
pub(crate) fn bit(at: u32, x: u16) -> bool
    requires { at < 16 }
    ensures { num result ≡ bit at x }
{
    x >> at & 1 == 1
}
