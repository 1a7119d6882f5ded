//! A page of text for a terminal.
ghost use Rattle.std.specs.Prelude.{◌≡◌, ◌≤◌, ◌++◌, ℕ, List, [], None, length};
ghost use Rattle.vipr_explain.specs.Page.{IsPage};

use std::alloc::{AllocError, Global};
use std::fmt::{self, Display, Write};

// The last line of a page that is cut.
const CUT: &str = ".. the rest is left out\n";

// The most bytes of a page before it: with it they are 65,536.
const MOST_BEFORE: usize = 65536 - CUT.len();

/// A text of at most 65,536 bytes, which are printable ASCII and line feeds. Every other byte that
/// is written to it is a question mark, so no control and no direction mark reaches a terminal.
/// What a longer text has more is left out, and a growth that is refused is remembered.
#[derive(Drop)]
pub struct Page {
    bytes: Vec<u8>,
    is_cut: bool,
    has_failed: bool,
    ghost is_page: { IsPage bytes.items },
}

impl Page {
    /// A page that begins with a text.
    pub(crate) fn begun(alloc: Global, text: &str) -> Page {
        let mut page = Page {
            bytes: Vec::new(alloc),
            is_cut: false,
            has_failed: false,
        };
        page.put(text);
        page
    }

    /// Writes a text.
    pub(crate) fn put(&mut self, text: &str) {
        for byte in text.as_bytes() {
            self.put_byte(*byte);
        }
    }

    /// Writes what `write!` is given.
    pub(crate) fn write_fmt<D: Display + Drop>(&mut self, values: D) {
        let _ = self.write(values);
    }

    /// The page whole. A longer text is cut at the end of a line, and the last line says so. There
    /// is none if a growth was refused.
    pub(crate) fn end(mut self) -> Option<Page> {
        if self.has_failed || (self.is_cut && self.end_cut().is_err()) {
            return None;
        }
        Some(self)
    }

    /// Its text.
    pub(crate) fn as_bytes(&self) -> &[u8]
        ensures { IsPage result.now }
    {
        self.bytes.as_slice()
    }

    // Takes away what is behind the last line feed, and says that it is cut.
    fn end_cut(&mut self) -> Result<(), AllocError> {
        let bytes = self.bytes.as_slice();
        let end = lines_end(&bytes[..bytes.len().min(MOST_BEFORE)]);
        self.bytes.truncate(end);
        self.bytes.extend_from_slice(CUT.as_bytes())?;
        Ok(())
    }

    // Writes a byte, if there is room for it.
    fn put_byte(&mut self, byte: u8) {
        let shown = match byte {
            10 | 32..=126 => byte,
            _ => b'?',
        };
        if self.bytes.len() >= MOST_BEFORE {
            self.is_cut = true;
        } else if self.bytes.push(shown).is_err() {
            self.has_failed = true;
        }
    }
}

/// A text with a page behind it, or with none if there is none or no memory for it.
pub fn with_page(mut text: Vec<u8>, page: Option<Page>) -> Vec<u8>
    ensures { (more : List ℕ) × IsPage more × (page ≡ None → more ≡ [])
        × (result.items ≡ text.items ++ more) }
{
    if let Some(page) = page {
        let _ = text.extend_from_slice(page.as_bytes());
        drop(page);
    }
    text
}

impl fmt::Write for Page {
    fn write_str(&mut self, text: &str) -> fmt::Result {
        self.put(text);
        Ok(())
    }
}

// Where the last line that is whole ends.
fn lines_end(bytes: &[u8]) -> usize
    ensures { result ≤ length bytes.now }
{
    let mut end = bytes.len();
    while end > 0 && bytes[end - 1] != b'\n' {
        end -= 1;
    }
    end
}
