//! The digest of bytes: 64-bit FNV-1a.

ghost use Rattle.std.specs.Prelude.{◌≡◌};
ghost use Rattle.bench.specs.Fnv.{digest_of};

/// The digest of these bytes.
pub(crate) fn digest(bytes: &[u8]) -> u64
    ensures { result ≡ digest_of bytes.now }
{
    bytes
        .iter()
        .fold(0xcbf2_9ce4_8422_2325, |state: u64, byte| {
            (state ^ u64::from(*byte)).wrapping_mul(0x100_0000_01b3)
        })
}
