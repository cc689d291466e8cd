//! A 1D was received: a piece of the table. PROTOCOL 15.7.
ghost use Rattle.std.specs.Prelude.{◌≡◌, ◌≤◌, Some, IfOk};
ghost use Rattle.frame.specs.Wire.{frame_limit};
ghost use Rattle.transfer.specs.Table.{check_number};
ghost use Rattle.transfer.specs.Payloads.{faulty, index_in, total_in, bytes_in, piece_of};
ghost use Rattle.transfer.specs.Checks.{hex_lines, first_refusal, open_tests, store_tests};
ghost use Rattle.transfer.specs.Transfers.{opened};
ghost use Rattle.transfer.specs.Calls.{Fits, held, stored_of, put_open, store_of};

use super::announcements::{Piece, piece_of};
use super::answers::{Arrival, ArriveError, Denial, Refusal};
use super::state::{Open, Transfer};
use super::writes::{refuse, write_empty};

// Bit 0 of the flags: the piece is a line of a hex file.
fn hex_lines(flags: u16) -> bool
    ensures { result ≡ hex_lines flags }
{
    flags % 2 == 1
}

impl Open {
    // The tests of a piece: TOOBIG, HEXLINES, PIECES, TURN, PIECE.
    fn check_piece(
        self,
        flags: u16,
        piece: Piece,
        bytes: &[u8],
        buffer: &[u8],
    ) -> Result<(), Denial>
        requires { 1 ≤ self.piece }
        ensures { check_number result
            ≡ first_refusal (open_tests self.size self.piece self.stored flags piece.index
            piece.total bytes.now buffer.now) }
    {
        if buffer.len() < self.size as usize {
            return Err(Denial::Refused(Refusal::TooBig));
        }
        if hex_lines(flags) {
            return Err(Denial::Refused(Refusal::HexLines));
        }
        if u32::from(piece.total) != self.pieces() {
            return Err(Denial::Refused(Refusal::Pieces));
        }
        if !self.in_turn(piece.index, piece.total) {
            return Err(Denial::Refused(Refusal::Turn));
        }
        if !self.right_bytes(piece.index, bytes, buffer) {
            return Err(Denial::Refused(Refusal::Piece));
        }
        Ok(())
    }

    // Puts a piece after those that are stored; the one just stored is there already.
    fn put(&mut self, index: u16, bytes: &[u8], buffer: &mut [u8])
        requires { Fits (Some self.old) index bytes.now buffer.old }
        ensures { held (opened self.new.size self.new.piece self.new.stored) buffer.new
            ≡ put_open (Some self.old) index bytes.now buffer.old }
    {
        if index != self.stored {
            base::put_bytes(buffer, self.start(self.stored) as usize, bytes);
            self.stored = index;
        }
    }
}

impl Transfer {
    // All tests, in the order of PROTOCOL 15.10, and what the 1D says.
    fn check_store(&self, flags: u16, payload: &[u8], buffer: &[u8]) -> Result<Piece, Denial>
        ensures number { check_number result
            ≡ first_refusal (store_tests self.now flags (faulty 0x1D payload.now)
            (index_in payload.now) (total_in payload.now) (bytes_in payload.now) buffer.now) }
        ensures read { IfOk result (λ p. Some p ≡ piece_of payload.now) }
    {
        if !self.is_in_range() {
            return Err(Denial::State);
        }
        let Some(piece) = piece_of(payload) else {
            return Err(Denial::Refused(Refusal::Size));
        };
        match self.open {
            Some(open) => {
                open.check_piece(flags, piece, message::part(payload, piece.bytes), buffer)?;
                Ok(piece)
            }
            None if hex_lines(flags) => Err(Denial::Refused(Refusal::HexLines)),
            None => Err(Denial::Refused(Refusal::Turn)),
        }
    }

    /// A 1D was received, under a number, with flags and a payload: where it is accepted, its bytes are in the buffer,
    /// and 1E is at the front of the output.
    pub fn store(
        &mut self,
        number: u8,
        flags: u16,
        payload: &[u8],
        buffer: &mut [u8],
        out: &mut [u8],
    ) -> Result<Arrival, ArriveError>
        ensures { stored_of result self.new buffer.new out.new
            ≡ store_of frame_limit self.old number flags payload.now buffer.old out.old }
    {
        let piece = match self.check_store(flags, payload, buffer) {
            Ok(piece) => piece,
            Err(denial) => return refuse(denial, number, out),
        };
        let count = write_empty(0x1E, number, out)?;
        if let Some(open) = &mut self.open {
            open.put(piece.index, message::part(payload, piece.bytes), buffer);
        }
        Ok(Arrival::Stored { count })
    }
}
