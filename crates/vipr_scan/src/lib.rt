//! The scanner of a text: one call takes a token of any kind, over a fixed buffer.
#![tactic(auto)]

mod buffer;
mod bytes;
pub mod cause;
mod cursor;
mod error;
mod kind;
mod place;
mod scan;
mod scanner;
mod tokens;
mod window;

pub use bytes::{is_white, run_end};
pub use cursor::Cursor;
pub use error::{Cause, ScanError, TextError};
pub use kind::{TokenKind, Unfit};
pub use place::{Position, gap};
pub use scan::Scan;
pub use scanner::Scanner;
pub use tokens::{Token, Tokens};
