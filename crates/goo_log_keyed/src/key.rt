//! HMAC-SHA-256 by a key.
ghost use Rattle.std.specs.Prelude.{◌≡◌, ◌≤◌, ◌++◌, length};
ghost use Rattle.hex.specs.Hex.{encode_lower};
ghost use Rattle.sha2.specs.Sha256.{sha256};
ghost use Rattle.goo_log_keyed.specs.Keyed.{filled as with_zeros, key_block, masked as masked_block, hash_by};

use crate::digest::{HexDigest, digits_of};
use sha2::{Digest, Sha256};
use std::marker::Model;

/// The bytes of a block of SHA-256.
const BLOCK: usize = 64;

/// A key, as the block that RFC 2104 makes of it.
#[derive(Drop)]
pub struct Key {
    block: [u8; BLOCK],
}

impl Model for Key {
    ghost use Rattle.std.specs.Prelude.{ℕ, List};

    ghost Value = { List ℕ };

    ghost view = { λ key. key.block };
}

/// A short key, with zeros behind it.
fn filled(key: &[u8]) -> [u8; BLOCK]
    requires { length key.now ≤ 64 }
    ensures { result ≡ with_zeros key.now }
{
    let mut block = [0; BLOCK];
    block[..key.len()].copy_from_slice(key);
    block
}

/// Each byte of a block, mixed with one byte.
fn masked(block: &[u8; BLOCK], byte: u8) -> [u8; BLOCK]
    ensures { result ≡ masked_block byte block.now }
{
    let mut mixed = [0; BLOCK];
    for (index, b) in block.iter().enumerate() {
        mixed[index] = b ^ byte;
    }
    mixed
}

/// The SHA-256 of a block and of a text behind it.
fn digest_behind(block: &[u8; BLOCK], text: &[u8]) -> [u8; 32]
    ensures { result ≡ sha256 (block.now ++ text.now) }
{
    let mut hasher = Sha256::new();
    hasher.update(block);
    hasher.update(text);
    hasher.finalize()
}

impl Key {
    /// The key of some bytes.
    pub fn new(key: &[u8]) -> Key
        ensures { result ≡ key_block key.now }
    {
        if key.len() > BLOCK {
            let digest: [u8; 32] = Sha256::digest(key);
            return Key {
                block: filled(&digest),
            };
        }
        Key { block: filled(key) }
    }

    /// The keyed hash of a text.
    #[tactic(auto, unfolding(crate::specs::Keyed::hash_by))]
    pub fn mac(&self, text: &[u8]) -> HexDigest
        ensures { result ≡ encode_lower (hash_by self.now text.now) }
    {
        let inner = digest_behind(&masked(&self.block, 0x36), text);
        digits_of(&digest_behind(&masked(&self.block, 0x5c), &inner))
    }
}
