//! Reading a payload: its message, or COMMAND, SIZE or FIELD, tested in this order. PROTOCOL 7.4 to 7.21.
//!
//! The fields of each payload, each with the byte at which it begins:
//!
//!   02   0 serial  8 protocol  16 hardware  24 software  32 key  64 timeout  66 attributes  74 secret  106
//!   03   0 action  1 control  5            action 1; a query is action 2 alone
//!   04   0 action  1 status  9             action 3; or no byte
//!   05   0 action  1 status  9             action 4
//!   09   0 way  1
//!   0D   0 bits  2
//!   11   0 code  1                         12 alike
//!   18   0 year  2 month  3 day  4 hour  5 minute  6 second  7 seconds since 1970  11
//!   19   0 size  4 count n  6 check code  6 + n
//!   1B   0 count n  2 check code  2 + n piece size  4 + n
//!   1D   0 index  2 total  4 data
#![tactic(auto, unfolding(base::specs::Keys::among, crate::specs::Layouts::fits, crate::specs::Layouts::size_fits))]

ghost use Rattle.std.specs.Prelude.{◌≡◌, ◌==◌, ◌∷◌, [], length, get_or};
ghost use Rattle.message.specs.Reading.{decode_as, decode_of, Found};
ghost use Rattle.message.specs.Layouts.{code_number, code_allowed};
ghost use Rattle.message.specs.Parts.{no_parts};
ghost use Rattle.message.specs.Table.{reading_of};
ghost use Rattle.message.specs.declared.kind.Kind.TheVariants as kind;
ghost use Rattle.message.specs.declared.reader.ReadError.TheVariants.{Field};

use super::bytes::{bit, eight_at};
use super::counter::{Control, Status};
use super::kind::{Kind, profile_of};
use super::parts::{Parts, Place, texts_and};
use super::values::{Code, Extra, Message, Network, Time, UnknownNumber, Way};

/// A message, and the places of its parts.
#[derive(Clone, Copy, Debug, PartialEq, Eq)]
pub struct Reading {
    pub message: Message,
    pub parts: Parts,
}

/// Why a payload is no message: COMMAND 31, SIZE 32, FIELD 33.
#[derive(Clone, Copy, Debug, PartialEq, Eq)]
pub enum ReadError {
    Command,
    Size,
    Field,
}

impl From<UnknownNumber> for ReadError {
    ghost from_gives = { λ _ error. error ≡ Field };

    fn from(_unknown: UnknownNumber) -> Self {
        ReadError::Field
    }
}

// A message without parts.
impl From<Message> for Reading {
    ghost from_gives = { λ m r. r ≡ record { message = m; parts = no_parts } };

    fn from(message: Message) -> Self {
        Reading {
            message,
            parts: Parts::default(),
        }
    }
}

// A command without a payload.
fn read_empty(command: u8, payload: &[u8]) -> Result<Reading, ReadError>
    ensures { reading_of result ≡ decode_as kind.Empty command payload.now }
{
    match payload {
        [] => Ok(Message::Empty { command }.into()),
        _ => Err(ReadError::Size),
    }
}

// 02: 66, 74 or 106 bytes. PROTOCOL 7.10.
fn read_information(payload: &[u8]) -> Result<Reading, ReadError>
    ensures { reading_of result ≡ decode_as kind.Information 0x02 payload.now }
{
    let attributes = eight_at(payload, 66);
    let (extra, secret) = match payload.len() {
        66 => (Extra::Absent, Place::default()),
        74 => (Extra::Attributes { attributes }, Place::default()),
        106 => (
            Extra::AttributesAndSecret { attributes },
            Place {
                start: 74,
                size: 32,
            },
        ),
        _ => return Err(ReadError::Size),
    };
    Ok(Reading {
        message: Message::Information {
            timeout: base::two_at(payload, 64),
            extra,
        },
        parts: texts_and(secret),
    })
}

// 03: a control or a query, by the first byte. PROTOCOL 7.17.
fn read_action(payload: &[u8]) -> Result<Reading, ReadError>
    ensures { reading_of result ≡ decode_as kind.Action 0x03 payload.now }
{
    match payload {
        [] => Err(ReadError::Size),
        [1, bytes @ ..] => {
            let control = Control::read(bytes)?;
            Ok(Message::Control { control }.into())
        }
        [2] => Ok(Message::Query.into()),
        [2, ..] => Err(ReadError::Size),
        _ => Err(ReadError::Field),
    }
}

// 04: empty after a control, or the status after a query. PROTOCOL 7.17.
fn read_status(payload: &[u8]) -> Result<Reading, ReadError>
    ensures { reading_of result ≡ decode_as kind.Status 0x04 payload.now }
{
    match payload {
        [] => Ok(Message::Empty { command: 0x04 }.into()),
        [3, bytes @ ..] => {
            let status = Status::read(bytes)?;
            Ok(Message::Status { status }.into())
        }
        _ => Err(ReadError::Field),
    }
}

// 05: a status that the box reports. PROTOCOL 7.17.
fn read_report(payload: &[u8]) -> Result<Reading, ReadError>
    ensures { reading_of result ≡ decode_as kind.Report 0x05 payload.now }
{
    match payload {
        [] => Err(ReadError::Size),
        [4, bytes @ ..] => {
            let status = Status::read(bytes)?;
            Ok(Message::Report { status }.into())
        }
        _ => Err(ReadError::Field),
    }
}

// 09: the number of a way. PROTOCOL 7.11.
fn read_onboarding(payload: &[u8]) -> Result<Reading, ReadError>
    ensures { reading_of result ≡ decode_as kind.Onboarding 0x09 payload.now }
{
    let &[way] = payload else {
        return Err(ReadError::Size);
    };
    let way = Way::try_from(way)?;
    Ok(Message::Onboarding { way }.into())
}

// 0D: the reserved bits are ignored. PROTOCOL 7.12.
fn read_network(payload: &[u8]) -> Result<Reading, ReadError>
    ensures { reading_of result ≡ decode_as kind.Network 0x0D payload.now }
{
    let &[high, low] = payload else {
        return Err(ReadError::Size);
    };
    let bits = u16::from_be_bytes([high, low]);
    let network = Network {
        softap: bit(0, bits),
        station: bit(1, bits),
        onboarding: bit(2, bits),
        binding: bit(3, bits),
        router: bit(4, bits),
        server: bit(5, bits),
        strength: high & 7,
        app: bit(11, bits),
        testing: bit(12, bits),
    };
    Ok(Message::Network { network }.into())
}

// 11 and 12: the number of an error code. PROTOCOL 7.13.
fn read_code(payload: &[u8]) -> Result<Code, ReadError>
    ensures { Found (λ code. code_number code ∷ []) (length payload.now == 1) (code_allowed (get_or payload.now 0 0))
        (get_or payload.now 0 0 ∷ []) result }
{
    let &[code] = payload else {
        return Err(ReadError::Size);
    };
    Ok(Code::try_from(code)?)
}

// 18: 7 or 11 bytes. PROTOCOL 7.14.
fn read_time(payload: &[u8]) -> Result<Reading, ReadError>
    ensures { reading_of result ≡ decode_as kind.Time 0x18 payload.now }
{
    let unix = match payload.len() {
        7 => None,
        11 => Some(base::four_at(payload, 7)),
        _ => return Err(ReadError::Size),
    };
    let time = Time {
        year: base::two_at(payload, 0),
        month: payload[2],
        day: payload[3],
        hour: payload[4],
        minute: payload[5],
        second: payload[6],
        unix,
    };
    Ok(Message::Time { time }.into())
}

// 19: the size of the data, and a check code of n bytes. PROTOCOL 7.15.
fn read_announcement(payload: &[u8]) -> Result<Reading, ReadError>
    ensures { reading_of result ≡ decode_as kind.Announcement 0x19 payload.now }
{
    let size = base::four_at(payload, 0);
    let count = usize::from(base::two_at(payload, 4));
    if payload.len() != 6 + count {
        return Err(ReadError::Size);
    }
    Ok(Reading {
        message: Message::Announcement { size },
        parts: Parts {
            code: Place {
                start: 6,
                size: count,
            },
            ..Parts::default()
        },
    })
}

// 1B: a check code of n bytes, and the size of a piece. PROTOCOL 7.15.
fn read_ready(payload: &[u8]) -> Result<Reading, ReadError>
    ensures { reading_of result ≡ decode_as kind.Ready 0x1B payload.now }
{
    let count = usize::from(base::two_at(payload, 0));
    if payload.len() != 4 + count {
        return Err(ReadError::Size);
    }
    let piece = base::two_at(payload, 2 + count);
    Ok(Reading {
        message: Message::Ready { piece },
        parts: Parts {
            code: Place {
                start: 2,
                size: count,
            },
            ..Parts::default()
        },
    })
}

// 1D: a piece of the data. PROTOCOL 7.16.
fn read_piece(payload: &[u8]) -> Result<Reading, ReadError>
    ensures { reading_of result ≡ decode_as kind.Piece 0x1D payload.now }
{
    let [index_high, index_low, total_high, total_low, data @ ..] = payload else {
        return Err(ReadError::Size);
    };
    Ok(Reading {
        message: Message::Piece {
            index: u16::from_be_bytes([*index_high, *index_low]),
            total: u16::from_be_bytes([*total_high, *total_low]),
        },
        parts: Parts {
            piece: Place {
                start: 4,
                size: data.len(),
            },
            ..Parts::default()
        },
    })
}

/// The message of a command and a payload, with the places of its parts, or the refusal.
#[tactic(auto, using(crate::proofs::Decoding::decoding))]
pub fn read(command: u8, payload: &[u8]) -> Result<Reading, ReadError>
    ensures { reading_of result ≡ decode_of command payload.now }
{
    // A kind to a reader each: a match is the plainest table.
    match profile_of(command).kind {
        Kind::Unlisted => Err(ReadError::Command),
        Kind::Empty => read_empty(command, payload),
        Kind::Information => read_information(payload),
        Kind::Action => read_action(payload),
        Kind::Status => read_status(payload),
        Kind::Report => read_report(payload),
        Kind::Onboarding => read_onboarding(payload),
        Kind::Network => read_network(payload),
        Kind::ModuleReject => {
            let code = read_code(payload)?;
            Ok(Message::ModuleReject { code }.into())
        }
        Kind::BoxReject => {
            let code = read_code(payload)?;
            Ok(Message::BoxReject { code }.into())
        }
        Kind::Time => read_time(payload),
        Kind::Announcement => read_announcement(payload),
        Kind::Ready => read_ready(payload),
        Kind::Piece => read_piece(payload),
    }
}
