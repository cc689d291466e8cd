//! What the layers share: bytes at a place, big-endian numbers, slices of the caller's data, how a write came out.
#![tactic(auto)]

mod bytes;
mod puts;
mod same;
mod slices;
mod writes;

pub use bytes::{byte_at, four_at, four_bytes, two_at, two_bytes};
pub use puts::put_bytes;
pub use same::same_bytes;
pub use slices::part;
pub use writes::{StateError, WriteError, count, needed, write_both};
