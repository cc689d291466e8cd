//! The replay of a capture: its text, made over slices, with one reader for each direction. PROTOCOL 14.
#![tactic(auto)]

mod closing;
mod playing;
mod state;
mod steps;
mod window;

pub use closing::{CloseError, Closing};
pub use playing::{Played, heading};
pub use state::Replay;
pub use steps::Stop;
pub use window::keep;
