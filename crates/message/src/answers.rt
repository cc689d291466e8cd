//! The answer of a reply. PROTOCOL 8.13.
use super::kind::Cause;
use super::values::Code;

/// The reply that was written, or what the caller is asked to send under the received sequence number: PROTOCOL 8.13.
#[derive(Clone, Copy, Debug, PartialEq, Eq)]
pub enum Reply {
    /// No reply is owed.
    Nothing,
    /// Device information: a 02.
    InformationWanted {
        number: u8,
    },
    /// The status: a 04.
    StatusWanted {
        number: u8,
    },
    /// The reply to a 19: a 1A, or a rejection.
    BeginWanted {
        number: u8,
    },
    /// The reply to a 1D: a 1E, or a rejection.
    StoreWanted {
        number: u8,
    },
    /// The reply to a 1F: a 20, or a rejection.
    StopWanted {
        number: u8,
    },
    /// An acknowledgement, of `count` bytes, was written.
    Acknowledged {
        count: usize,
    },
    /// A rejection, a 12 of `count` bytes, was written.
    Rejected {
        count: usize,
        code: Code,
        cause: Cause,
    },
}
