//! The table of commands: the kind of payload of each, who sends it, and the reply that the box owes. PROTOCOL 7.1 to
//! 7.3, 8.2 to 8.4, 8.9. A new command is a line of `profile_of` and of the table in specs/Commands.antt.
ghost use Rattle.std.specs.Prelude.{◌≡◌};
ghost use Rattle.message.specs.Commands.{profile_with, profile_of};
ghost use Rattle.message.specs.Table.{cause_number};

/// A kind of payload. `Empty` is shared by 24 commands; each other kind has one command.
#[derive(Clone, Copy, Debug, PartialEq, Eq)]
pub enum Kind {
    Unlisted,
    Empty,
    Information,
    Action,
    Status,
    Report,
    Onboarding,
    Network,
    ModuleReject,
    BoxReject,
    Time,
    Announcement,
    Ready,
    Piece,
}

/// Who sends a command. A command that the table does not list counts as the module's. PROTOCOL 7.3.
#[derive(Clone, Copy, Debug, PartialEq, Eq)]
pub enum Sender {
    Module,
    Box,
}

/// Why the box rejects a frame: a wrong sum, a refusal of its reading, or a command that only the box sends.
#[derive(Clone, Copy, Debug, PartialEq, Eq)]
pub enum Cause {
    /// The sum is wrong: SUM.
    Sum,
    /// Reading answered COMMAND.
    Command,
    /// Reading answered SIZE.
    Size,
    /// Reading answered FIELD.
    Field,
    /// Only the box sends this command.
    BoxCommand,
}

impl Cause {
    /// The number of the answer that caused the rejection; 0 for a command that only the box sends. PROTOCOL 8.13.
    // A method, and no `From`: the number is the answer's in the table, and no value that another type would take.
    pub fn number(self) -> u8
        ensures { result ≡ cause_number self }
    {
        match self {
            Cause::Sum => 15,
            Cause::Command => 31,
            Cause::Size => 32,
            Cause::Field => 33,
            Cause::BoxCommand => 0,
        }
    }
}

/// The reply that is owed to a received frame. `AskBegin`, `AskStore` and `AskStop` hand 19, 1D and 1F to the caller.
#[derive(Clone, Copy, Debug, PartialEq, Eq)]
pub enum Owed {
    Nothing,
    AskInformation,
    AskStatus,
    AskBegin,
    AskStore,
    AskStop,
    Acknowledge { command: u8 },
    Reject { cause: Cause },
}

/// The profile of a command: `owed` is the reply to it without fault. For 19, 1D and 1F it is the reply to a faulty one
/// too.
#[derive(Clone, Copy, Debug, PartialEq, Eq)]
pub struct Profile {
    pub kind: Kind,
    pub sender: Sender,
    pub owed: Owed,
}

// A profile from the columns of its entry in the table.
fn entry(kind: Kind, sender: Sender, owed: Owed) -> Profile
    ensures { result ≡ profile_with kind sender owed }
{
    Profile { kind, sender, owed }
}

// The profile of a command.
#[tactic(auto, unfolding(crate::specs::Commands::table, crate::specs::Commands::profile_in))]
pub(crate) fn profile_of(command: u8) -> Profile
    ensures { result ≡ profile_of command }
{
    match command {
        0x01 => entry(Kind::Empty, Sender::Module, Owed::AskInformation),
        0x02 => entry(Kind::Information, Sender::Box, Owed::Nothing),
        0x03 => entry(
            Kind::Action,
            Sender::Module,
            Owed::Acknowledge { command: 0x04 },
        ),
        0x04 => entry(Kind::Status, Sender::Box, Owed::Nothing),
        0x05 => entry(Kind::Report, Sender::Box, Owed::Nothing),
        0x06 | 0x0A | 0x0C | 0x14 | 0x16 | 0x1C | 0x28 | 0x2A => {
            entry(Kind::Empty, Sender::Module, Owed::Nothing)
        }
        0x07 => entry(
            Kind::Empty,
            Sender::Module,
            Owed::Acknowledge { command: 0x08 },
        ),
        0x08 | 0x0B | 0x0E | 0x10 | 0x13 | 0x15 | 0x17 | 0x1A | 0x1E | 0x20 | 0x27 | 0x29 => {
            entry(Kind::Empty, Sender::Box, Owed::Nothing)
        }
        0x09 => entry(Kind::Onboarding, Sender::Box, Owed::Nothing),
        0x0D => entry(
            Kind::Network,
            Sender::Module,
            Owed::Acknowledge { command: 0x0E },
        ),
        0x0F => entry(
            Kind::Empty,
            Sender::Module,
            Owed::Acknowledge { command: 0x10 },
        ),
        0x11 => entry(Kind::ModuleReject, Sender::Module, Owed::Nothing),
        0x12 => entry(Kind::BoxReject, Sender::Box, Owed::Nothing),
        0x18 => entry(Kind::Time, Sender::Module, Owed::Nothing),
        0x19 => entry(Kind::Announcement, Sender::Module, Owed::AskBegin),
        0x1B => entry(Kind::Ready, Sender::Box, Owed::Nothing),
        0x1D => entry(Kind::Piece, Sender::Module, Owed::AskStore),
        0x1F => entry(Kind::Empty, Sender::Module, Owed::AskStop),
        _ => entry(Kind::Unlisted, Sender::Module, Owed::Nothing),
    }
}
