//! The checksum of a record.
ghost use Rattle.std.specs.Prelude.{◌≡◌};
ghost use Rattle.sup_journal.specs.Checksums.{checksum};

const OFFSET_BASIS: u64 = 14695981039346656037;

const PRIME: u64 = 1099511628211;

/// FNV-1a of 64 bits. It tells a record from bytes that are none, where chance lets it.
#[tactic(auto, unfolding(crate::specs::Checksums::checksum))]
pub fn checksum(bytes: &[u8]) -> u64
    ensures { result ≡ checksum bytes.now }
{
    bytes.iter().fold(OFFSET_BASIS, |hash, byte| {
        (hash ^ u64::from(*byte)).wrapping_mul(PRIME)
    })
}
