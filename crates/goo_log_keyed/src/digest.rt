//! SHA-256 in hex.
ghost use Rattle.std.specs.Prelude.{◌≡◌, ◌++◌};
ghost use Rattle.hex.specs.Hex.{encode_lower};
ghost use Rattle.sha2.specs.Sha256.{sha256};

use sha2::{Digest, Sha256};

/// A digest as lower-case hex digits.
pub type HexDigest = [u8; 64];

/// The digits of a digest.
pub(crate) fn digits_of(digest: &[u8; 32]) -> HexDigest
    ensures { result ≡ encode_lower digest.now }
{
    let mut digits = [0; 64];
    match hex::encode_to_slice(digest, &mut digits) {
        Ok(()) => digits,
        Err(_) => unreachable!(),
    }
}

/// The SHA-256 of a text.
pub fn hash_of(text: &[u8]) -> HexDigest
    ensures { result ≡ encode_lower (sha256 text.now) }
{
    let digest: [u8; 32] = Sha256::digest(text);
    digits_of(&digest)
}

/// The SHA-256 of two pieces as one text.
pub fn hash_of_both(first: &[u8], second: &[u8]) -> HexDigest
    ensures { result ≡ encode_lower (sha256 (first.now ++ second.now)) }
{
    let mut hasher = Sha256::new();
    hasher.update(first);
    hasher.update(second);
    let digest = hasher.finalize();
    digits_of(&digest)
}
