//! How a run ended, for the caller that makes the exit status of it: docs/COMMAND.md.
ghost use Rattle.std.specs.Prelude.{◌≡◌};

use std::env::{Env, FillError};

// Whether the program was called with an argument, of whatever length.
fn has_argument(rt: &HostRuntime) -> bool {
    let mut first = [0u8; 1];
    !matches!(rt.arg(1, &mut first), Err(FillError::NotPresent))
}

/// The program does not choose its exit status. With an argument, whatever it is, it marks on standard error how it
/// ended: a run that ends without a mark ended early.
pub fn mark(rt: &HostRuntime, line: &str)
    ensures { result ≡ record {} }
{
    if has_argument(rt) {
        let _ = eprintln!(rt; "{line}");
    }
}
