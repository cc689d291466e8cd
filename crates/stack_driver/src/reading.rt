//! The reader, with its bytes for a body.
ghost use Rattle.std.specs.Prelude.{◌≡◌};
ghost use Rattle.frame.specs.Wire.{frame_limit};
ghost use Rattle.stack_driver.specs.Turns.{fed_of};

use super::numbers::of_feed;
use frame::Reader;

/// A feed of a fresh reader.
#[unsafe(no_mangle)]
pub extern "C" fn stack_feed(bytes: &[u8]) -> u32
    ensures { result ≡ (fed_of frame_limit bytes.now).row.number }
{
    let mut reader = Reader::new();
    of_feed(reader.feed(bytes))
}
