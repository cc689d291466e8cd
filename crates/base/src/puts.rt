//! Bytes stored in the caller's buffer.
ghost use Rattle.std.specs.Prelude.{◌+◌, ◌≤◌, length};
ghost use Rattle.base.specs.Stores.{PutAt, fitting};

// Puts bytes from a place on that has room for them; returns the place that follows them. A loop, because the copy of
// std would need `memmove` of whoever links an archive with it.
fn put_all(out: &mut [u8], at: usize, bytes: &[u8]) -> usize
    requires { at + length bytes.now ≤ length out.old }
    ensures { PutAt out.old at bytes.now result out.new }
{
    let mut next = at;
    for byte in bytes {
        out[next] = *byte;
        next += 1;
    }
    at + bytes.len()
}

/// Puts bytes from a place on and returns the place that follows them. Where they do not fit, nothing is put, and the
/// place itself is returned.
pub fn put_bytes(out: &mut [u8], at: usize, bytes: &[u8]) -> usize
    ensures { PutAt out.old at (fitting out.old at bytes.now)
        result out.new }
{
    if out.len() < at || out.len() - at < bytes.len() {
        return at;
    }
    put_all(out, at, bytes)
}
