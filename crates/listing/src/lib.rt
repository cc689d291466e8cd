//! The listing: lines of text, made at the front of the caller's buffer, and the loop that lists bytes. PROTOCOL 10.
#![tactic(auto)]

mod decimal;
mod feeding;
mod lines;
mod text;

pub use feeding::{Listed, Stop, list};
pub use lines::{heading, last, line, refusal};
