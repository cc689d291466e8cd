//! Frames of the Gizwits serial protocol: the writer, the streaming reader, and the fields of a body.
#![tactic(auto)]

mod body;
mod place;
mod reader;
mod scan;
mod writer;

/// The greatest length L of a frame: PROTOCOL 2.4.
pub const LIMIT: usize = 1024;

pub use body::{command, flags, number, payload};
pub use place::{BodyPlace, WirePlace};
pub use reader::{Decision, Fed, FeedError, Finish, Reader, count};
pub use scan::{Phase, Scan, Verdict};
pub use writer::{Head, write, write_chunks, write_parts};
