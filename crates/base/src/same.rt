//! Bytes compared with bytes.
ghost use Rattle.std.specs.Prelude.{◌≡◌};
ghost use Rattle.base.specs.Same.{same_bytes};

/// Whether both slices hold the same bytes: as many, and each the same.
#[tactic(auto, using(crate::proofs::Compared::pointwise_same))]
pub fn same_bytes(a: &[u8], b: &[u8]) -> bool
    ensures { result ≡ same_bytes a.now b.now }
{
    a == b
}
