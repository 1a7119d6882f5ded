//! Checks bytes in memory, and prints what comes of it.
use std::alloc::{AllocError, Global};
use vipr_lib::{Bytes, Explanation, Fault, check, explain};

/// What a person reads of the bytes: the verdict, or why there is none.
///
/// # Errors
///
/// If there is no memory for the text.
pub fn verdict_text(alloc: Global, text: &[u8]) -> Result<String, AllocError> {
    match check(alloc, Bytes::new(text)) {
        Ok(verdict) => format!(in alloc; "{verdict}"),
        Err(fault) => format!(in alloc; "no verdict: {fault}"),
    }
}

/// The verdict on the bytes, and why it is so.
///
/// # Errors
///
/// `Fault::Memory` if a growth is refused.
pub fn explanation(alloc: Global, text: &[u8]) -> Result<String, Fault> {
    let (verdict, detail) = explain(alloc, Bytes::new(text))?;
    let explanation = Explanation {
        verdict: &verdict,
        detail: &detail,
    };
    Ok(explanation.to_string(alloc)?)
}
