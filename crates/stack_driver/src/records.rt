//! Records from the numbers that a test passes. Any numbers will do: a call refuses a record that is out of range.
ghost use Rattle.std.specs.Prelude.{◌≡◌};
ghost use Rattle.stack_driver.specs.Records.{link_from, transfer_from};

use link::{Link, Waiting};
use transfer::{Open, Transfer};

// A link: `waiting` is the command that waits under the number `next`, or 0.
pub(crate) fn link_from(next: u8, waiting: u8, sent: u32, repeats: u8) -> Link
    ensures { result ≡ link_from next waiting sent repeats }
{
    if waiting == 0 {
        return Link {
            next,
            waiting: None,
        };
    }
    Link {
        next,
        waiting: Some(Waiting {
            command: waiting,
            number: next,
            sent,
            repeats,
        }),
    }
}

// A transfer: of `size` bytes, or none where that is 0.
pub(crate) fn transfer_from(size: u32, piece: u16, stored: u16) -> Transfer
    ensures { result ≡ transfer_from size piece stored }
{
    if size == 0 {
        return Transfer::new();
    }
    Transfer {
        open: Some(Open {
            size,
            piece,
            stored,
        }),
    }
}
