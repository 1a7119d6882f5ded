//! What the program can be asked for.

use vipr_rules::Profile;
use vipr_write::Form;

/// What the program is to do.
#[derive(Clone, Copy, Debug, PartialEq, Eq)]
pub enum Task {
    Check,
    Explain,
    Show,
    Tighten,
}

/// A command line that was read: the task, by which rules it is done, the form of the text that it
/// writes, the file that it names, and the one to write to. Only `Tighten` has that, and `Show`
/// tests no rules. `Check` and `Explain` write no text, and have the canonical form. Only these two
/// may add the digest of what they read, and only `Explain` may be long.
#[derive(Clone, Copy, Debug, PartialEq, Eq)]
pub struct Job<'a> {
    pub command: Task,
    pub profile: Profile,
    pub form: Form,
    pub is_long: bool,
    pub has_sum: bool,
    pub file: Option<&'a str>,
    pub out: Option<&'a str>,
}
