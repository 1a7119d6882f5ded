//! The digest of a text.
ghost use Rattle.std.specs.Prelude.{◌≡◌};
ghost use Rattle.vipr_text.specs.Digest.{hex_digest};

use sha2::{Digest as _, Sha256};

/// The SHA-256 of a text, in hex digits of lower case.
pub fn hex_digest(text: &[u8]) -> [u8; 64]
    ensures { result ≡ hex_digest text.now }
{
    let mut digits = [0; 64];
    hex::encode_to_slice(Sha256::digest(text), &mut digits).unwrap();
    digits
}
