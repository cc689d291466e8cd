//! The calls of a box's main loop for C, so that a test can measure the stack that each of them uses: docs/STACK.md.
//! A record is made here from the numbers that the test passes, and an answer is returned as the number of its row.
//! That is C's interface: so numbers travel together, and contracts hand the link's figures to the models.
#![tactic(auto)]

mod devices;
mod numbers;
mod reading;
mod records;
mod sending;
mod tables;
mod writing;

pub use devices::{stack_handle, stack_turn};
pub use reading::stack_feed;
pub use sending::stack_link;
pub use tables::{stack_begin, stack_cancel, stack_stop, stack_store};
pub use writing::{stack_information, stack_reply, stack_status};
