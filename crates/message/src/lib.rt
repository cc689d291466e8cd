//! Messages of the Gizwits serial protocol and of our counter: read from a payload, written as a frame, replied to by
//! the box. PROTOCOL 7.1 to 8.13.
#![tactic(auto)]

mod answers;
mod bytes;
mod counter;
mod kind;
mod parts;
mod reader;
mod replies;
mod values;
mod writer;

pub use answers::Reply;
pub use counter::{Control, Flags, Mode, Status};
pub use kind::Cause;
pub use parts::{Parts, Place, part};
pub use reader::{ReadError, Reading, read};
pub use replies::{reply, reply_frame, reply_reading};
pub use values::{Code, Extra, Message, Network, Time, UnknownNumber, Way};
pub use writer::{SendError, write};
