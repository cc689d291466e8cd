//! What a box keeps.
ghost use Rattle.std.specs.Prelude.{◌≡◌};
ghost use Rattle.link.specs.Sending.{first_number};
ghost use Rattle.link.specs.Calls.{fresh_of};
ghost use Rattle.transfer.specs.Transfers.{absent};

use link::Link;
use transfer::Transfer;

/// A box: its link, and the transfer of a table to it. Any values may be given.
#[derive(Clone, Copy, Debug, PartialEq, Eq)]
pub struct Device {
    pub link: Link,
    pub transfer: Transfer,
}

impl Device {
    /// A fresh box: nothing waits, and no transfer is open.
    pub fn new() -> Self
        ensures link { result.link ≡ fresh_of first_number }
        ensures transfer { result.transfer ≡ absent }
    {
        Device {
            link: Link::new(),
            transfer: Transfer::new(),
        }
    }
}
