//! Bytes of a stranger's text, as a page shows them on one line.

use std::fmt::{self, Display, Formatter, Write};

/// A tab is shown as a space, a backslash is doubled, and each other byte that isn't printable
/// ASCII is escaped.
#[derive(Clone, Copy)]
pub struct StrangeBytes<'a>(pub &'a [u8]);

// One of them.
#[derive(Clone, Copy)]
struct StrangeByte(u8);

impl Display for StrangeBytes<'_> {
    fn fmt<W: Write>(&self, f: &mut Formatter<W>) -> fmt::Result {
        for byte in self.0 {
            write!(f, "{}", StrangeByte(*byte))?;
        }
        Ok(())
    }
}

impl Display for StrangeByte {
    fn fmt<W: Write>(&self, f: &mut Formatter<W>) -> fmt::Result {
        let byte = self.0;
        match byte {
            9 => f.write_str(" "),
            92 => f.write_str("\\\\"),
            32..=126 => f.write_char(char::from(byte)),
            _ => write!(f, "\\x{byte:02x}"),
        }
    }
}
