//! What an explanation is about, and places in its text.

use std::alloc::Global;
use vipr_rules::Profile;
use vipr_scan::TextError;

/// What a text gives that is read again, or why it gives none.
pub(crate) type Reread<T> = Result<T, TextError>;

/// What an explanation is about: a text, and the rules by which it was checked.
#[derive(Clone, Copy)]
pub struct Subject<'a> {
    pub alloc: Global,
    pub profile: Profile,
    pub text: &'a [u8],
}

/// Bytes of a text: the offset of the first one, counted from 0, and how many they are.
#[derive(Clone, Copy)]
pub(crate) struct Span {
    pub(crate) offset: u64,
    pub(crate) size: usize,
}
