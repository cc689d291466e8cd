//! Two types of places, on the wire and in the body, so that neither is used as the other. PROTOCOL 1.5.
ghost use Rattle.std.specs.Prelude.{◌≡◌, ◌+◌, ◌-◌, ◌^◌, ◌<◌};

/// A place on the wire: it counts every byte received, a stuffed 55 too.
#[derive(Clone, Copy, Debug, PartialEq, Eq)]
pub struct WirePlace(pub u64);

/// A place in the body: it counts body bytes, where an FF and its stuffed 55 are one.
#[derive(Clone, Copy, Debug, PartialEq, Eq)]
pub struct BodyPlace(pub usize);

/// The bytes that a reader may consume in all, 2^62: PROTOCOL 4.18.
pub(crate) const MAX_CONSUMED: u64 = 1 << 62;

impl WirePlace {
    /// The previous place, or 0.
    pub(crate) fn previous(self) -> Self
        ensures { result.0 ≡ self.0 - 1 }
    {
        WirePlace(self.0.saturating_sub(1))
    }

    /// The next place.
    pub(crate) fn next(self) -> Self
        requires { self.0 < 2 ^ 62 }
        ensures { result.0 ≡ self.0 + 1 }
    {
        WirePlace(self.0 + 1)
    }
}
