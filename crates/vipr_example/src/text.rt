//! Spells a certificate in its canonical text.
use std::alloc::Global;
use vipr_lib::{Bytes, TextError, WriteError, read_certificate, write_certificate};

/// The canonical text of the certificate that the bytes spell.
///
/// # Errors
///
/// `Refused` if they spell none, and `Memory` if a growth is refused.
pub fn canonical(alloc: Global, text: &[u8]) -> Result<Vec<u8>, TextError> {
    let certificate = read_certificate(alloc, Bytes::new(text))?;
    let mut out = Vec::new(alloc);
    match write_certificate(alloc, &certificate, &mut out) {
        Ok(()) => Ok(out),
        // A vector takes each write whole, or has no memory for it.
        Err(WriteError::Write { .. } | WriteError::Memory { .. }) => Err(TextError::Memory),
    }
}
