//! A record: direction, milliseconds, count, bytes. PROTOCOL 13.3.
ghost use Rattle.std.specs.Prelude.{◌≡◌, ◌≤◌, min, length};
ghost use Rattle.base.specs.Numbers.{two_at};
ghost use Rattle.base.specs.Parts.{IsPart};
ghost use Rattle.capture.specs.Format.{payload_of, size_of};
ghost use Rattle.capture.specs.Table.{direction_number, IsDirection};

// The bytes of a record before its payload: PROTOCOL 13.3.
const RECORD_HEAD: usize = 7;

/// Who sent the bytes of a record.
#[derive(Clone, Copy, Debug, PartialEq, Eq)]
pub enum Direction {
    /// The module: 0.
    FromModule,
    /// The box: 1.
    FromBox,
}

/// A first byte that no record has.
#[derive(Clone, Copy, Debug, PartialEq, Eq)]
pub struct UnknownDirection(pub u8);

/// The direction as a record's first byte.
impl From<Direction> for u8 {
    ghost from_gives = { λ direction byte. byte ≡ direction_number direction };

    fn from(direction: Direction) -> u8 {
        match direction {
            Direction::FromModule => 0,
            Direction::FromBox => 1,
        }
    }
}

/// The direction that a record's first byte says.
impl TryFrom<u8> for Direction {
    type Error = UnknownDirection;

    ghost try_from_gives = { IsDirection };

    fn try_from(byte: u8) -> Result<Self, UnknownDirection> {
        match byte {
            0 => Ok(Direction::FromModule),
            1 => Ok(Direction::FromBox),
            _ => Err(UnknownDirection(byte)),
        }
    }
}

// The size of the record at the front of some bytes, by its count, whether or not all of it is there.
pub(crate) fn size(bytes: &[u8]) -> usize
    ensures { (result ≡ size_of bytes.now) × (result ≤ 65542) }
{
    RECORD_HEAD + usize::from(base::two_at(bytes, 5))
}

/// The payload of the record at the front of some bytes, as a slice of them and not a copy, cut where they end.
pub fn payload(bytes: &[u8]) -> &[u8]
    ensures { (result.now ≡ payload_of bytes.now)
        × IsPart bytes.entry result (min 7 (length bytes.now)) (two_at bytes.now 5) }
{
    base::part(bytes, RECORD_HEAD, usize::from(base::two_at(bytes, 5)))
}
