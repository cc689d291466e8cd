//! The counter's own layout, after the payload's first byte. PROTOCOL 7.17 to 7.20.
//!
//!   status   byte 1     bit 7..4  3..2    1      0       control   byte 1     bit 7..3    2      1     0
//!                           zero  mode  lamp  feeding              (flags)        zero  volume  mode  lamp
//!            byte 2, 3  volume                                     byte 2     bit 7..3   2..1    0
//!            byte 4..7  leaf                                       (values)       zero   mode  lamp
//!            byte 8     bit 7..3    2        1       0             byte 3, 4  volume
//!                           zero  fault  skipped  double
ghost use Rattle.std.specs.Prelude.{◌≡◌, ◌∷◌, ◌==◌, length};
ghost use Rattle.message.specs.Counter.{status_values, status_allowed, control_values, control_allowed, mode_number};
ghost use Rattle.message.specs.Counter.{status_in, control_in, status_bytes, control_bytes, NamesMode};
ghost use Rattle.message.specs.Reading.{Found};

use super::bytes::bit;
use super::reader::ReadError;
use super::values::UnknownNumber;

/// What the counter does with the leaves: 0, 1, 2.
#[derive(Clone, Copy, Debug, PartialEq, Eq)]
pub enum Mode {
    Fold,
    Gather,
    Sew,
}

impl TryFrom<u8> for Mode {
    type Error = UnknownNumber;

    ghost try_from_gives = { NamesMode };

    fn try_from(number: u8) -> Result<Self, UnknownNumber> {
        match number {
            0 => Ok(Mode::Fold),
            1 => Ok(Mode::Gather),
            2 => Ok(Mode::Sew),
            _ => Err(UnknownNumber(number)),
        }
    }
}

impl From<Mode> for u8 {
    ghost from_gives = { λ mode number. number ≡ mode_number mode };

    fn from(mode: Mode) -> u8 {
        match mode {
            Mode::Fold => 0,
            Mode::Gather => 1,
            Mode::Sew => 2,
        }
    }
}

/// The state of the counter.
#[derive(Clone, Copy, Debug, PartialEq, Eq)]
pub struct Status {
    pub feeding: bool,
    pub lamp: bool,
    pub mode: Mode,
    pub volume: u16,
    pub leaf: u32,
    pub double: bool,
    pub skipped: bool,
    pub fault: bool,
}

/// Which values of a control are set; the others are ignored.
#[derive(Clone, Copy, Debug, PartialEq, Eq)]
pub struct Flags {
    pub lamp: bool,
    pub mode: bool,
    pub volume: bool,
}

/// What the counter is to do.
#[derive(Clone, Copy, Debug, PartialEq, Eq)]
pub struct Control {
    pub flags: Flags,
    pub lamp: bool,
    pub mode: Mode,
    pub volume: u16,
}

impl Status {
    // The status in the bytes after a payload's first. FIELD where a zero bit is set, or the mode is 3: PROTOCOL 7.20.
    pub(crate) fn read(bytes: &[u8]) -> Result<Self, ReadError>
        ensures { Found status_in (length bytes.now == 8) (status_allowed bytes.now)
            (status_values bytes.now) result }
    {
        let &[first, high, low, a, b, c, d, last] = bytes else {
            return Err(ReadError::Size);
        };
        if 16 <= first || 8 <= last {
            return Err(ReadError::Field);
        }
        let mode = Mode::try_from(first >> 2)?;
        let first = u16::from(first);
        let last = u16::from(last);
        Ok(Status {
            feeding: bit(0, first),
            lamp: bit(1, first),
            mode,
            volume: u16::from_be_bytes([high, low]),
            leaf: u32::from_be_bytes([a, b, c, d]),
            double: bit(0, last),
            skipped: bit(1, last),
            fault: bit(2, last),
        })
    }
}

impl Control {
    // The control in the bytes after a payload's first. FIELD where a zero bit is set, or the mode, with its flag, is
    // 3: PROTOCOL 7.20. Without its flag a value reads as 0: PROTOCOL 7.18.
    pub(crate) fn read(bytes: &[u8]) -> Result<Self, ReadError>
        ensures { Found control_in (length bytes.now == 4) (control_allowed bytes.now)
            (control_values bytes.now) result }
    {
        let &[flags, values, high, low] = bytes else {
            return Err(ReadError::Size);
        };
        if 8 <= flags || 8 <= values {
            return Err(ReadError::Field);
        }
        let bits = u16::from(flags);
        let flags = Flags {
            lamp: bit(0, bits),
            mode: bit(1, bits),
            volume: bit(2, bits),
        };
        Ok(Control {
            flags,
            lamp: flags.lamp && bit(0, u16::from(values)),
            mode: if flags.mode {
                Mode::try_from(values >> 1)?
            } else {
                Mode::Fold
            },
            volume: if flags.volume {
                u16::from_be_bytes([high, low])
            } else {
                0
            },
        })
    }
}

// A payload's first byte, and a status after it.
pub(crate) fn status_bytes(action: u8, status: Status) -> [u8; 9]
    ensures { result ≡ action ∷ status_bytes status }
{
    let first = u8::from(status.feeding) + u8::from(status.lamp) * 2 + u8::from(status.mode) * 4;
    let last = u8::from(status.double) + u8::from(status.skipped) * 2 + u8::from(status.fault) * 4;
    let [high, low] = status.volume.to_be_bytes();
    let [a, b, c, d] = status.leaf.to_be_bytes();
    [action, first, high, low, a, b, c, d, last]
}

// A payload's first byte, and a control after it. Without its flag a value is written as 0: PROTOCOL 7.18.
pub(crate) fn control_bytes(action: u8, control: Control) -> [u8; 5]
    ensures { result ≡ action ∷ control_bytes control }
{
    let Flags { lamp, mode, volume } = control.flags;
    let flags = u8::from(lamp) + u8::from(mode) * 2 + u8::from(volume) * 4;
    let set_mode = if mode { u8::from(control.mode) } else { 0 };
    let set_volume = if volume { control.volume } else { 0 };
    let values = u8::from(lamp && control.lamp) + set_mode * 2;
    let [high, low] = set_volume.to_be_bytes();
    [action, flags, values, high, low]
}
