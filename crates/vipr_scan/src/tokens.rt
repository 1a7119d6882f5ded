ghost use Rattle.std.specs.Prelude.{◌≡◌, ◌⊎◌, ◌↔◌, true, false, IfOk, IfSome, IfErr, IsErrOf};
ghost use Rattle.std.specs.Prelude.{IsSome, Some};
ghost use Rattle.std.specs.{Borrow.sem, Io.BufRead.Rests};
ghost use Rattle.vipr_bytes.specs.Known.{IfKnown, text_of};
ghost use Rattle.vipr_spec.specs.Tokens.{IsToken};
ghost use Rattle.vipr_scan.specs.Tokens.{view_of_token, ends_reading, public_answer, Follows};
ghost use Rattle.vipr_scan.specs.contracts.tokens.Tokens.{the_row};
ghost use Rattle.vipr_scan.specs.{Giving.rest_of, View.view_of_answer};

use crate::error::TextError;
use crate::window::{Found, Window};
use std::alloc::{AllocError, Global};
use std::marker::Model;
use vipr_bytes::Source;

/// A token of a text.
#[derive(Clone, Copy, Debug)]
pub struct Token<'a> {
    /// Its bytes, or the first 65,535 if it is too long.
    pub bytes: &'a [u8],
    /// The offset of its first byte in the text.
    pub offset: u64,
    /// Whether it has more than 65,535 bytes.
    pub long: bool,
}

/// A window that is read no more once an error or a token that was too long came.
#[derive(Drop)]
struct Reader<R> {
    window: Window<R>,
    failed: bool,
}

impl<R: Source> Reader<R> {
    ghost use Rattle.vipr_scan.specs.View.{rest_of_window, view_of_found, next_left, IsFound};

    /// Finds the next token, and takes it.
    fn advance(&mut self) -> Result<Option<Found>, TextError>
        ensures spent { IsErrOf result TextError.Spent ↔ (self.old.failed ≡ true) }
        ensures failed { self.new.failed ≡
            ends_reading (view_of_answer (view_of_found self.new.window.buf.value) result) }
        ensures unchanged { self.old.failed ≡ true → self.new ≡ self.old }
        ensures answer { self.old.failed ≡ false → IfSome (rest_of_window R.input self.old.window)
            (λ l. view_of_answer (view_of_found self.new.window.buf.value) result
            ≡ public_answer l) }
        ensures left { self.new.failed ≡ false → IfSome (rest_of_window R.input self.old.window)
            (λ l. rest_of_window R.input self.new.window ≡ Some (next_left l)) }
        ensures found { IfOk result (λ o. IfSome o (IsFound self.new.window.buf.value)) }
        ensures error { IfErr result (λ e. (e ≡ TextError.Read) ⊎ (e ≡ TextError.Spent)) }
    {
        if self.failed {
            return Err(TextError::Spent);
        }
        match self.window.advance() {
            Ok(found) => {
                if let Some(found) = &found {
                    self.failed = found.long;
                }
                Ok(found)
            }
            Err(stop) => {
                self.failed = true;
                Err(TextError::from(stop))
            }
        }
    }
}

/// Reads the tokens of a text, over a buffer of 65,536 bytes.
#[derive(Drop)]
pub struct Tokens<R: Source> {
    reader: Reader<R>,
}

impl<R: Source> Model for Tokens<R> {
    ghost use Rattle.vipr_scan.specs.Tokens.{Reading, reading};

    ghost Value = { Reading };

    ghost view = { λ t. reading R.input t.reader };
}

impl<R: Source> Tokens<R> {
    /// A reader at the start of the text. If there is no memory, nothing was read.
    pub fn new(alloc: Global, source: R) -> Result<Tokens<R>, AllocError>
    where
        R: Drop,
        ensures fresh { IfOk result (λ t. t.failed ≡ false) }
        ensures rest { IfOk result
            (λ t. IfKnown (R.input source) (λ i. t.rest ≡ Some (text_of i))) }
    {
        let window = Window::new(alloc, source)?;
        Ok(Tokens {
            reader: Reader {
                window,
                failed: false,
            },
        })
    }

    /// The next token, or `None` at the end. It takes no memory.
    ///
    /// It fails only if a read fails before the token's end is known, and after an earlier
    /// failure or a token that was too long.
    pub fn next(&mut self) -> Result<Option<Token<'_>>, TextError>
        ensures spent { IsErrOf result TextError.Spent ↔ (self.old.failed ≡ true) }
        ensures token { IfOk result (λ o. IfSome o (λ t. IsToken t.bytes.now)) }
        ensures error { IfErr result (λ e. (e ≡ TextError.Read) ⊎ (e ≡ TextError.Spent)) }
        ensures answer { self.old.failed ≡ false → IsSome self.old.rest →
            view_of_answer view_of_token result ≡ public_answer (rest_of self.old.rest) }
        ensures* after { sem 𝓛 (Rests (the_row R.row R.Source) self.entry
            (λ new. Follows self.old (view_of_answer view_of_token result) new)) }
    {
        let reader = &mut self.reader;
        let Some(found) = reader.advance()? else {
            return Ok(None);
        };
        let end = found.start + found.len;
        Ok(Some(Token {
            bytes: &reader.window.buf[found.start..end],
            offset: found.offset,
            long: found.long,
        }))
    }
}
