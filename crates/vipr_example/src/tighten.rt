//! Keeps of a certificate what its proof needs.

use std::alloc::Global;
use vipr_lib::{Bytes, Outcome, TightenFault, tighten};

/// The canonical text of the tightened certificate, `None` if the bytes are no proof.
///
/// # Errors
///
/// `TightenFault::Memory` if a growth is refused.
pub fn tightened(alloc: Global, text: &[u8]) -> Result<Option<Vec<u8>>, TightenFault> {
    let mut out = Vec::new(alloc);
    match tighten(alloc, Bytes::new(text), &mut out)? {
        Outcome::Tightened { .. } => Ok(Some(out)),
        Outcome::Refused(_) => Ok(None),
    }
}
