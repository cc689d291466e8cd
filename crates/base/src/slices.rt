//! Slices of the caller's data: the very bytes, not a copy. PROTOCOL 7.9.
ghost use Rattle.std.specs.Prelude.{◌≡◌, min, length, drop};
ghost use Rattle.base.specs.Parts.{IsPart};

/// `size` bytes from a place on, cut where the bytes end; an empty slice at the end, if the place is beyond it.
pub fn part(bytes: &[u8], start: usize, size: usize) -> &[u8]
    ensures { IsPart bytes.entry result (min start (length bytes.now)) size }
{
    let from = start.min(bytes.len());
    let count = size.min(bytes.len() - from);
    &bytes[from..from + count]
}

/// All bytes from a place on.
pub(crate) fn rest(bytes: &[u8], start: usize) -> &[u8]
    ensures { result.now ≡ drop start bytes.now }
{
    part(bytes, start, bytes.len())
}
