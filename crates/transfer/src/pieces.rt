//! The pieces of a table: how many there are, where each begins, its size, and which comes next. PROTOCOL 15.4, 15.5,
//! 15.7.
//!
//! A product of two numbers below 2^16 is below 2^32, so none of them wraps.
ghost use Rattle.std.specs.Prelude.{◌≡◌, ◌≤◌};
ghost use Rattle.transfer.specs.Pieces.{pieces_of, start_of, piece_size, bytes_of};
ghost use Rattle.transfer.specs.Checks.{in_turn, right_bytes};

use super::state::Open;

impl Open {
    // The size divided by the piece size, rounded up.
    #[tactic(auto, using(crate::proofs::PieceLaws::rounds_up))]
    pub(crate) fn pieces(self) -> u32
        requires { 1 ≤ self.piece }
        ensures { result ≡ pieces_of self.size self.piece }
    {
        self.size.div_ceil(u32::from(self.piece))
    }

    // Where the piece begins that `before` pieces precede.
    pub(crate) fn start(self, before: u16) -> u32
        ensures { result ≡ start_of self.piece before }
    {
        u32::from(before) * u32::from(self.piece)
    }

    // The bytes of the first pieces.
    pub(crate) fn bytes_of(self, count: u16) -> u32
        ensures { result ≡ bytes_of self.size self.piece count }
    {
        self.start(count).min(self.size)
    }

    // The size of the piece after the first `before` pieces: the last one has the rest.
    pub(crate) fn piece_size(self, before: u16) -> u32
        ensures { result ≡ piece_size self.size self.piece before }
    {
        u32::from(self.piece).min(self.size.saturating_sub(self.start(before)))
    }

    // Whether a piece's number is the next one, up to the total, or the one just stored.
    pub(crate) fn in_turn(self, index: u16, total: u16) -> bool
        ensures { result ≡ in_turn index total self.stored }
    {
        if index == self.stored {
            return 0 < self.stored;
        }
        u32::from(index) == u32::from(self.stored) + 1 && index <= total
    }

    // Whether the bytes are right: as many as the next piece has, or those of the piece just stored.
    pub(crate) fn right_bytes(self, index: u16, bytes: &[u8], buffer: &[u8]) -> bool
        requires { index ≡ self.stored → 1 ≤ self.stored }
        ensures { result ≡ right_bytes self.size self.piece self.stored index bytes.now buffer.now }
    {
        if index != self.stored {
            return bytes.len() == self.piece_size(self.stored) as usize;
        }
        let before = self.stored - 1;
        let start = self.start(before) as usize;
        let count = self.piece_size(before) as usize;
        base::same_bytes(bytes, base::part(buffer, start, count))
    }
}
