//! The parts of a payload that are not values: texts, key, secret, check code and data, by the places that reading
//! gives. PROTOCOL 7.9.
ghost use Rattle.std.specs.Prelude.{◌≡◌};
ghost use Rattle.message.specs.Parts.{texts_and, PartAt};

/// The place of a part in the payload: its first byte and its size. Both are 0 where the message does not have the
/// part. Numbers and no slice, since `part` promises an answer for every place, made-up ones too (`PartAt`), and the
/// claims `parts_exactly` and `parts_within` are on places.
#[derive(Clone, Copy, Debug, Default, PartialEq, Eq)]
pub struct Place {
    pub start: usize,
    pub size: usize,
}

/// The places of the versions (of serial protocol, product's protocol, hardware, software), the product key, the
/// secret, a check code, and a piece's data. `Parts::default()` has those of a message without parts.
#[derive(Clone, Copy, Debug, Default, PartialEq, Eq)]
pub struct Parts {
    pub serial: Place,
    pub protocol: Place,
    pub hardware: Place,
    pub software: Place,
    pub key: Place,
    pub secret: Place,
    pub code: Place,
    pub piece: Place,
}

// 02: texts and key at their places, and the secret's place. PROTOCOL 7.10.
pub(crate) fn texts_and(secret: Place) -> Parts
    ensures { result ≡ texts_and secret }
{
    Parts {
        serial: Place { start: 0, size: 8 },
        protocol: Place { start: 8, size: 8 },
        hardware: Place { start: 16, size: 8 },
        software: Place { start: 24, size: 8 },
        key: Place {
            start: 32,
            size: 32,
        },
        secret,
        ..Parts::default()
    }
}

/// The part of the caller's payload at a place, cut at the payload's end.
pub fn part(payload: &[u8], place: Place) -> &[u8]
    ensures { PartAt payload.entry result place }
{
    base::part(payload, place.start, place.size)
}
