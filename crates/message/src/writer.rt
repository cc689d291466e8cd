//! Writing a message as a frame: COMMAND, SIZE and FIELD, then the PAYLOAD and ROOM of the frame writer.
//! PROTOCOL 7.22 to 7.25. `opaque` is the caller's data for the message: PROTOCOL 7.24.
ghost use Rattle.std.specs.Prelude.{◌≡◌, Err, true, [], ◌++◌, ◌<◌, ◌≤◌, length, eqb, ltb};
ghost use Rattle.base.specs.Numbers.{two, four};
ghost use Rattle.base.specs.Outcomes.{output};
ghost use Rattle.frame.specs.Wire.{frame_limit, joined_chunks};
ghost use Rattle.frame.specs.Calls.{write_of};
ghost use Rattle.message.specs.Numbers.{eight};
ghost use Rattle.message.specs.Table.{reading_of, send_row_of};
ghost use Rattle.message.specs.Messages.{information_bytes, information_numbers, information_opaque};
ghost use Rattle.message.specs.Messages.{network_bytes, time_bytes, unix_bytes, countable};
ghost use Rattle.message.specs.Writing.{send_as, send_bare, send_of};
ghost use Rattle.message.specs.declared.writer.SendError.TheVariants as unsent;
ghost use Rattle.message.specs.declared.values.Message.TheVariants as message;

use super::counter::{control_bytes, status_bytes};
use super::reader::{ReadError, read};
use super::values::{Extra, Message, Network, Time};
use base::WriteError;
use frame::Head;

/// Why a message was not written. The caller's buffer is then unchanged.
#[derive(Clone, Copy, Debug, PartialEq, Eq)]
pub enum SendError {
    /// COMMAND 31: a message without payload, whose command is not listed.
    Command,
    /// SIZE 32: the message takes another size of the caller's data, or its command has a payload.
    Size,
    /// FIELD 33: a strength above 7.
    Field,
    /// PAYLOAD 21 or ROOM 22: the refusal of the frame writer.
    Unwritten(WriteError),
}

impl From<WriteError> for SendError {
    ghost from_gives = { λ why error. error ≡ unsent.Unwritten why };

    fn from(why: WriteError) -> Self {
        SendError::Unwritten(why)
    }
}

impl From<ReadError> for SendError {
    ghost from_gives = { λ refusal e. send_row_of (Err e) ≡ (reading_of (Err refusal)).row };

    fn from(refusal: ReadError) -> Self {
        match refusal {
            ReadError::Command => SendError::Command,
            ReadError::Size => SendError::Size,
            ReadError::Field => SendError::Field,
        }
    }
}

// What every message is written with: the head of its frame, and the caller's data.
#[derive(Clone, Copy)]
struct Outgoing<'a> {
    head: Head,
    opaque: &'a [u8],
}

impl Outgoing<'_> {
    // A frame with a payload in three chunks.
    fn send(
        self,
        first: &[u8],
        second: &[u8],
        third: &[u8],
        out: &mut [u8],
    ) -> Result<usize, SendError>
        ensures { output (send_row_of result) out.new
            ≡ write_of frame_limit self.entry.head.command self.entry.head.number
            self.entry.head.flags (joined_chunks first.now second.now third.now) out.old }
    {
        Ok(frame::write_chunks(self.head, first, second, third, out)?)
    }

    // A message that takes none of the caller's data.
    fn bare(self, payload: &[u8], out: &mut [u8]) -> Result<usize, SendError>
        ensures { output (send_row_of result) out.new
            ≡ send_bare frame_limit true self.entry.head.command self.entry.head.number
            self.entry.head.flags self.entry.opaque.now payload.now out.old }
    {
        if !self.opaque.is_empty() {
            return Err(SendError::Size);
        }
        self.send(payload, &[], &[], out)
    }

    // A command without payload, if reading accepts it so: PROTOCOL 7.25.
    fn empty(self, out: &mut [u8]) -> Result<usize, SendError>
        ensures { output (send_row_of result) out.new
            ≡ send_of frame_limit (message.Empty self.entry.head.command) self.entry.head.number
            self.entry.head.flags self.entry.opaque.now out.old }
    {
        read(self.head.command, &[])?;
        self.bare(&[], out)
    }

    // 02: numbers between texts and key, which are the first 64 bytes of the caller's data, and the secret, which is
    // the rest of it. PROTOCOL 7.10.
    fn between(self, size: usize, numbers: &[u8], out: &mut [u8]) -> Result<usize, SendError>
        requires { 64 ≤ size }
        ensures { output (send_row_of result) out.new
            ≡ send_as frame_limit true (eqb (length self.entry.opaque.now) size) true
            self.entry.head.command self.entry.head.number self.entry.head.flags
            (information_bytes numbers.now self.entry.opaque.now) out.old }
    {
        if self.opaque.len() != size {
            return Err(SendError::Size);
        }
        let (texts, secret) = self.opaque.split_at(64);
        self.send(texts, numbers, secret, out)
    }

    // 02 in one of its three sizes: PROTOCOL 7.10.
    fn information(self, timeout: u16, extra: Extra, out: &mut [u8]) -> Result<usize, SendError>
        ensures { output (send_row_of result) out.new
            ≡ send_as frame_limit true
            (eqb (length self.entry.opaque.now) (information_opaque extra)) true
            self.entry.head.command self.entry.head.number self.entry.head.flags
            (information_bytes (information_numbers timeout extra) self.entry.opaque.now) out.old }
    {
        match extra {
            Extra::Absent => self.between(64, &timeout.to_be_bytes(), out),
            Extra::Attributes { attributes } => {
                self.between(64, &attribute_bytes(timeout, attributes), out)
            }
            Extra::AttributesAndSecret { attributes } => {
                self.between(96, &attribute_bytes(timeout, attributes), out)
            }
        }
    }

    // 0D: a strength above 7 is FIELD. PROTOCOL 7.25.
    fn network(self, network: Network, out: &mut [u8]) -> Result<usize, SendError>
        ensures { output (send_row_of result) out.new
            ≡ send_bare frame_limit (ltb network.strength 8) self.entry.head.command
            self.entry.head.number self.entry.head.flags self.entry.opaque.now
            (network_bytes network) out.old }
    {
        if !self.opaque.is_empty() {
            return Err(SendError::Size);
        }
        if network.strength > 7 {
            return Err(SendError::Field);
        }
        self.send(&network_bytes(network), &[], &[], out)
    }

    // 18: 7 or 11 bytes. PROTOCOL 7.14.
    fn time(self, time: Time, out: &mut [u8]) -> Result<usize, SendError>
        ensures { output (send_row_of result) out.new
            ≡ send_bare frame_limit true self.entry.head.command self.entry.head.number
            self.entry.head.flags self.entry.opaque.now (time_bytes time (unix_bytes time.unix))
            out.old }
    {
        let date = date_bytes(time);
        match time.unix {
            None => self.bare(&date, out),
            Some(_) if !self.opaque.is_empty() => Err(SendError::Size),
            Some(seconds) => self.send(&date, &seconds.to_be_bytes(), &[], out),
        }
    }

    // 19: a count of 2 bytes cannot name a longer check code. PROTOCOL 7.15, 7.24.
    fn announcement(self, size: u32, out: &mut [u8]) -> Result<usize, SendError>
        ensures { output (send_row_of result) out.new
            ≡ send_as frame_limit true (countable (length self.entry.opaque.now)) true
            self.entry.head.command self.entry.head.number self.entry.head.flags
            (four size (two (length self.entry.opaque.now) self.entry.opaque.now)) out.old }
    {
        let Ok(count) = u16::try_from(self.opaque.len()) else {
            return Err(SendError::Size);
        };
        self.send(&size.to_be_bytes(), &count.to_be_bytes(), self.opaque, out)
    }

    // 1B: the same.
    fn ready(self, piece: u16, out: &mut [u8]) -> Result<usize, SendError>
        ensures { output (send_row_of result) out.new
            ≡ send_as frame_limit true (countable (length self.entry.opaque.now)) true
            self.entry.head.command self.entry.head.number self.entry.head.flags
            (two (length self.entry.opaque.now) (self.entry.opaque.now ++ two piece [])) out.old }
    {
        let Ok(count) = u16::try_from(self.opaque.len()) else {
            return Err(SendError::Size);
        };
        self.send(&count.to_be_bytes(), self.opaque, &piece.to_be_bytes(), out)
    }
}

// 02: timeout and attributes.
fn attribute_bytes(timeout: u16, attributes: u64) -> [u8; 10]
    ensures { result ≡ two timeout (eight attributes []) }
{
    let [high, low] = timeout.to_be_bytes();
    let [a, b, c, d, e, f, g, h] = attributes.to_be_bytes();
    [high, low, a, b, c, d, e, f, g, h]
}

// 18 without the seconds since 1970.
fn date_bytes(time: Time) -> [u8; 7]
    ensures { result ≡ time_bytes time [] }
{
    let [high, low] = time.year.to_be_bytes();
    [
        high,
        low,
        time.month,
        time.day,
        time.hour,
        time.minute,
        time.second,
    ]
}

// 0D: the high byte first; the reserved bits are 0. PROTOCOL 7.12.
fn network_bytes(network: Network) -> [u8; 2]
    requires { network.strength < 8 }
    ensures { result ≡ network_bytes network }
{
    let high = network.strength + u8::from(network.app) * 8 + u8::from(network.testing) * 16;
    let low = u8::from(network.softap)
        + u8::from(network.station) * 2
        + u8::from(network.onboarding) * 4
        + u8::from(network.binding) * 8
        + u8::from(network.router) * 16
        + u8::from(network.server) * 32;
    [high, low]
}

/// Writes a message as a frame at the front of the caller's buffer and returns the frame's size. Or refuses it, and
/// the buffer is unchanged: COMMAND, SIZE, FIELD, then PAYLOAD and ROOM as `frame::write` does. `opaque` is what the
/// message does not hold: 64 bytes of texts and key for `Information`, with a secret 96; the check code, at most 65,535
/// bytes, for `Announcement` and `Ready`; the data for `Piece`; none for any other. PROTOCOL 7.22 to 7.25.
#[tactic(auto, unfolding(crate::specs::Commands::table, crate::specs::Commands::profile_in))]
pub fn write(
    message: Message,
    opaque: &[u8],
    number: u8,
    flags: u16,
    out: &mut [u8],
) -> Result<usize, SendError>
    ensures { output (send_row_of result) out.new
        ≡ send_of frame_limit message number flags opaque.now out.old }
{
    let head = Head {
        command: message.command(),
        number,
        flags,
    };
    let outgoing = Outgoing { head, opaque };
    // A match, because it is the table: what each message puts into its payload.
    match message {
        Message::Empty { .. } => outgoing.empty(out),
        Message::Information { timeout, extra } => outgoing.information(timeout, extra, out),
        Message::Control { control } => outgoing.bare(&control_bytes(1, control), out),
        Message::Query => outgoing.bare(&[2], out),
        Message::Status { status } => outgoing.bare(&status_bytes(3, status), out),
        Message::Report { status } => outgoing.bare(&status_bytes(4, status), out),
        Message::Onboarding { way } => outgoing.bare(&[way.into()], out),
        Message::Network { network } => outgoing.network(network, out),
        Message::ModuleReject { code } | Message::BoxReject { code } => {
            outgoing.bare(&[code.into()], out)
        }
        Message::Time { time } => outgoing.time(time, out),
        Message::Announcement { size } => outgoing.announcement(size, out),
        Message::Ready { piece } => outgoing.ready(piece, out),
        Message::Piece { index, total } => {
            outgoing.send(&index.to_be_bytes(), &total.to_be_bytes(), opaque, out)
        }
    }
}
