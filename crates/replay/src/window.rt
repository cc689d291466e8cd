//! A window on a capture, in the caller's buffer: what is not used yet moves to the front. PROTOCOL 14.7.
ghost use Rattle.std.specs.Prelude.{◌≡◌, ◌≤◌, length};
ghost use Rattle.base.specs.Outcomes.{onto};
ghost use Rattle.replay.specs.Window.{kept_of};

/// Moves the bytes from `start` up to `end` to the front of the buffer, whose other bytes stay; returns how many there
/// are. Places beyond the buffer are those of its end.
pub fn keep(buffer: &mut [u8], start: usize, end: usize) -> usize
    ensures counted { result ≡ length (kept_of start end buffer.old) }
    ensures moved { buffer.new ≡ onto (kept_of start end buffer.old) buffer.old }
    ensures within { result ≤ length buffer.new }
{
    let last = end.min(buffer.len());
    if last < start {
        return 0;
    }
    buffer.copy_within(start..last, 0);
    last - start
}
