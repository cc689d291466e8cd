//! What a received 19 or 1D says, as `message` reads it. PROTOCOL 7.15, 7.16.
//!
//! Check code and bytes stay places, and not slices: `message::read` answers with places (`decode_of`), and `code_at`
//! and `bytes_at` are about these.
ghost use Rattle.std.specs.Prelude.{◌≡◌, [], ◌∷◌, ℕ, Some};
ghost use Rattle.message.specs.Messages.{message_in};
ghost use Rattle.transfer.specs.Payloads.{announcement_of, piece_of};

use message::{Message, Place};

// A 19: the size that it announces, and the place of its check code.
#[derive(Clone, Copy, Debug, PartialEq, Eq)]
pub(crate) struct Announcement {
    pub size: u32,
    pub code: Place,
}

// A 1D: the number of the piece and of how many, and the place of its bytes.
#[derive(Clone, Copy, Debug, PartialEq, Eq)]
pub(crate) struct Piece {
    pub index: u16,
    pub total: u16,
    pub bytes: Place,
}

// What a message that was read from a 19 announces; `message` reads no other from it.
fn announced(message: Message, code: Place) -> Option<Announcement>
    ensures { (n : ℕ) → message_in message ≡ 0x19 ∷ n ∷ []
        → result ≡ Some (record { size = n; code = code }) }
{
    match message {
        Message::Announcement { size } => Some(Announcement { size, code }),
        _ => None,
    }
}

// What a message that was read from a 1D says; `message` reads no other from it.
fn numbered(message: Message, bytes: Place) -> Option<Piece>
    ensures { (i t : ℕ) → message_in message ≡ 0x1D ∷ i ∷ t ∷ []
        → result ≡ Some (record { index = i; total = t; bytes = bytes }) }
{
    match message {
        Message::Piece { index, total } => Some(Piece {
            index,
            total,
            bytes,
        }),
        _ => None,
    }
}

// What a 19 says, unless it is faulty. One function for this and the next would be handed what it takes of a message.
pub(crate) fn announcement_of(payload: &[u8]) -> Option<Announcement>
    ensures { result ≡ announcement_of payload.now }
{
    match message::read(0x19, payload) {
        Ok(reading) => announced(reading.message, reading.parts.code),
        Err(_) => None,
    }
}

// What a 1D says, unless it is faulty.
pub(crate) fn piece_of(payload: &[u8]) -> Option<Piece>
    ensures { result ≡ piece_of payload.now }
{
    match message::read(0x1D, payload) {
        Ok(reading) => numbered(reading.message, reading.parts.piece),
        Err(_) => None,
    }
}
