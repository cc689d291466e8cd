//! The fields of a body, read at their places. Any bytes will do: a missing field reads as 0 or empty. PROTOCOL 2.11.
ghost use Rattle.std.specs.Prelude.{◌≡◌, ◌-◌, min, length};
ghost use Rattle.frame.specs.Wire.{length_of, command_of, number_of, flags_of, payload_of};
ghost use Rattle.base.specs.Parts.{IsPart};

/// The command.
pub fn command(body: &[u8]) -> u8
    ensures { result ≡ command_of body.now }
{
    base::byte_at(body, 2)
}

/// The sequence number, which pairs a reply with its command.
pub fn number(body: &[u8]) -> u8
    ensures { result ≡ number_of body.now }
{
    base::byte_at(body, 3)
}

/// The flags.
pub fn flags(body: &[u8]) -> u16
    ensures { result ≡ flags_of body.now }
{
    base::two_at(body, 4)
}

/// The payload, as a slice of the caller's body and not a copy: L - 5 bytes after the head, cut where the body ends;
/// none where L is less than 5.
pub fn payload(body: &[u8]) -> &[u8]
    ensures { (result.now ≡ payload_of body.now)
        × IsPart body.entry result (min 6 (length body.now)) (length_of body.now - 5) }
{
    let length = usize::from(base::two_at(body, 0));
    base::part(body, 6, length.saturating_sub(5))
}
