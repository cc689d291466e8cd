//! What the box does with an answer of the reader: the link receives the frame, and the reply is written. It adds no
//! rule to those of the layers below. PROTOCOL 16. Contracts hand the link's figures to the models, because claims on
//! `handle_of` are about every figure.
#![tactic(auto)]

mod answers;
mod handles;
mod state;

pub use answers::{HandleError, Handled};
pub use state::Device;
