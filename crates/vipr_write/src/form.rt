//! The forms in which a certificate's text is written.

/// How the text of a certificate writes a row that is the objective's.
#[derive(Clone, Copy, Debug, PartialEq, Eq)]
pub enum Form {
    /// As each other row.
    Canonical,
    /// As the word `OBJ`, unless it is empty: `0` is shorter then.
    Compact,
}
