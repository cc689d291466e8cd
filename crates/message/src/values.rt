//! The values of a message. Texts, key, secret, check code and data are not values: they stay in the caller's payload,
//! and `part` returns them. PROTOCOL 7.9 to 7.16.
ghost use Rattle.std.specs.Prelude.{◌≡◌};
ghost use Rattle.message.specs.Messages.{command_in};
ghost use Rattle.message.specs.Layouts.{way_number, NamesWay, code_number, NamesCode};

use super::counter::{Control, Status};

/// A number that stands for no mode, no way or no error code.
#[derive(Clone, Copy, Debug, PartialEq, Eq)]
pub struct UnknownNumber(pub u8);

/// The ways to set the module up: 1 and 2. PROTOCOL 7.11.
#[derive(Clone, Copy, Debug, PartialEq, Eq)]
pub enum Way {
    SoftAp,
    AirLink,
}

impl TryFrom<u8> for Way {
    type Error = UnknownNumber;

    ghost try_from_gives = { NamesWay };

    fn try_from(number: u8) -> Result<Self, UnknownNumber> {
        match number {
            1 => Ok(Way::SoftAp),
            2 => Ok(Way::AirLink),
            _ => Err(UnknownNumber(number)),
        }
    }
}

impl From<Way> for u8 {
    ghost from_gives = { λ way number. number ≡ way_number way };

    fn from(way: Way) -> u8 {
        match way {
            Way::SoftAp => 1,
            Way::AirLink => 2,
        }
    }
}

/// The error codes of a rejection: 1 to 4. PROTOCOL 7.13.
#[derive(Clone, Copy, Debug, PartialEq, Eq)]
pub enum Code {
    /// 1: a wrong sum.
    Sum,
    /// 2: an unknown command.
    Command,
    /// 3: any other fault.
    Other,
    /// 4: a file of a wrong type.
    FileType,
}

impl TryFrom<u8> for Code {
    type Error = UnknownNumber;

    ghost try_from_gives = { NamesCode };

    fn try_from(number: u8) -> Result<Self, UnknownNumber> {
        match number {
            1 => Ok(Code::Sum),
            2 => Ok(Code::Command),
            3 => Ok(Code::Other),
            4 => Ok(Code::FileType),
            _ => Err(UnknownNumber(number)),
        }
    }
}

impl From<Code> for u8 {
    ghost from_gives = { λ code number. number ≡ code_number code };

    fn from(code: Code) -> u8 {
        match code {
            Code::Sum => 1,
            Code::Command => 2,
            Code::Other => 3,
            Code::FileType => 4,
        }
    }
}

/// What device information has in addition to texts, key and timeout: 66, 74 or 106 bytes. PROTOCOL 7.10. Three
/// layouts, so an enum: an `Option` would need a flag for the secret beside it.
#[derive(Clone, Copy, Debug, PartialEq, Eq)]
pub enum Extra {
    Absent,
    Attributes { attributes: u64 },
    AttributesAndSecret { attributes: u64 },
}

/// The state of the module's networks, from bit 0 up; `strength` is bits 8 to 10, the last two are bits 11 and 12.
/// PROTOCOL 7.12.
#[derive(Clone, Copy, Debug, PartialEq, Eq)]
pub struct Network {
    pub softap: bool,
    pub station: bool,
    pub onboarding: bool,
    pub binding: bool,
    pub router: bool,
    pub server: bool,
    pub strength: u8,
    pub app: bool,
    pub testing: bool,
}

/// The network's time; `unix` is seconds since 1970, where the payload has them. No value is tested: PROTOCOL 7.14.
#[derive(Clone, Copy, Debug, PartialEq, Eq)]
pub struct Time {
    pub year: u16,
    pub month: u8,
    pub day: u8,
    pub hour: u8,
    pub minute: u8,
    pub second: u8,
    pub unix: Option<u32>,
}

/// A message: `Empty` is a command without payload; each other message has a payload of its own.
#[derive(Clone, Copy, Debug, PartialEq, Eq)]
pub enum Message {
    Empty { command: u8 },
    Information { timeout: u16, extra: Extra },
    Control { control: Control },
    Query,
    Status { status: Status },
    Report { status: Status },
    Onboarding { way: Way },
    Network { network: Network },
    ModuleReject { code: Code },
    BoxReject { code: Code },
    Time { time: Time },
    Announcement { size: u32 },
    Ready { piece: u16 },
    Piece { index: u16, total: u16 },
}

impl Message {
    // The command of its frame: the table of the messages.
    pub(crate) fn command(self) -> u8
        ensures { result ≡ command_in self }
    {
        match self {
            Message::Empty { command } => command,
            Message::Information { .. } => 0x02,
            Message::Control { .. } | Message::Query => 0x03,
            Message::Status { .. } => 0x04,
            Message::Report { .. } => 0x05,
            Message::Onboarding { .. } => 0x09,
            Message::Network { .. } => 0x0D,
            Message::ModuleReject { .. } => 0x11,
            Message::BoxReject { .. } => 0x12,
            Message::Time { .. } => 0x18,
            Message::Announcement { .. } => 0x19,
            Message::Ready { .. } => 0x1B,
            Message::Piece { .. } => 0x1D,
        }
    }
}
