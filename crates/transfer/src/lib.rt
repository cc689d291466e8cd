//! A transfer: a counting table that the module sends piece by piece, into the caller's buffer. PROTOCOL 15.
//!
//! Contracts hand the link's figures to the models (`first_number max_repeats`), because claims on `begin_of` and
//! `cancel_of` are about every figure.
#![tactic(auto)]

mod announcements;
mod answers;
mod begins;
mod cancels;
mod pieces;
mod state;
mod stops;
mod stores;
mod writes;

/// The pieces that a transfer has at most: PROTOCOL 15.4.
pub const MAX_PIECES: u32 = 65535;

pub use answers::{Arrival, ArriveError, Refusal};
pub use state::{Open, Progress, Transfer};
