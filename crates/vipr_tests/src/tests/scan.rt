//! Tokens of short texts, a token that a failed read cuts short, and one that is too long.
ghost use Rattle.std.specs.Prelude.{ℕ, Ok, length};

use super::bytes::Interrupted;
use super::same;
use std::alloc::Global;
use std::process::Abort;
use vipr_bytes::{Bytes, FromRead, Source};
use vipr_scan::{
    Cause, Scan as _, ScanError, Scanner, TextError, TokenKind, Tokens, Unfit, cause, run_end,
};

/// Asks for a token, and compares its bytes and its offset.
fn gives<R: Source>(rt: &impl Abort, tokens: &mut Tokens<R>, wanted: Option<(&[u8], u64)>) {
    let token = tokens.next().expect(rt, "a token");
    same(rt, token.map(|token| (token.bytes, token.offset)), wanted);
}

#[test]
fn tokens_come_with_their_offsets(rt: HostRuntime) {
    let text = Bytes::new(b"% no token\n ab\tc");
    let mut tokens = Tokens::new(rt.alloc(), text).expect(&rt, "tokens");
    gives(&rt, &mut tokens, Some((b"ab", 12)));
    gives(&rt, &mut tokens, Some((b"c", 15)));
    gives(&rt, &mut tokens, None);
    gives(&rt, &mut tokens, None);
    drop(tokens);
}

/// Asks for a token, and compares the error.
fn fails<R: Source>(rt: &impl Abort, tokens: &mut Tokens<R>, wanted: TextError) {
    same(rt, tokens.next().err(), Some(wanted));
}

#[test]
fn a_token_before_a_failed_read_is_not_given(rt: HostRuntime) {
    let source = FromRead::new(Interrupted::new(b"ab cd".as_slice(), 3));
    let mut tokens = Tokens::new(rt.alloc(), source).expect(&rt, "tokens");
    gives(&rt, &mut tokens, Some((b"ab", 0)));
    fails(&rt, &mut tokens, TextError::Read);
    fails(&rt, &mut tokens, TextError::Spent);
    drop(tokens);
}

/// Asks for a token, and compares its length and whether it is cut.
fn has_length<R: Source>(rt: &impl Abort, tokens: &mut Tokens<R>, wanted: (usize, bool)) {
    let found = match tokens.next().expect(rt, "a token") {
        Some(token) => Some((token.bytes.len(), token.long)),
        None => None,
    };
    same(rt, found, Some(wanted));
}

#[test]
fn a_token_of_65536_bytes_is_too_long(rt: HostRuntime) {
    let text = [b'a'; 65536];
    let mut tokens = Tokens::new(rt.alloc(), Bytes::new(&text)).expect(&rt, "tokens");
    has_length(&rt, &mut tokens, (65535, true));
    fails(&rt, &mut tokens, TextError::Spent);
    drop(tokens);
    let mut shorter = Tokens::new(rt.alloc(), Bytes::new(&text[1..])).expect(&rt, "tokens");
    has_length(&rt, &mut shorter, (65535, false));
    drop(shorter);
}

/// Any bytes.
struct Any;

impl TokenKind for Any {
    type Value = usize;

    ghost Meant = { ℕ };

    ghost view = { λ n. n };

    ghost meaning = { λ _ bytes. Ok (length bytes) };

    fn read(&self, bytes: &[u8]) -> Result<usize, Unfit> {
        Ok(bytes.len())
    }

    fn read_front(&self, bytes: &[u8]) -> Option<(usize, usize)> {
        let n = run_end(bytes, 0);
        if n == 0 || n == bytes.len() {
            None
        } else {
            Some((n, n))
        }
    }
}

fn is_refused(rt: &impl Abort, alloc: Global, text: &[u8], wanted: ScanError) {
    let mut scanner = Scanner::new(alloc, Bytes::new(text)).expect(rt, "a scanner");
    same(rt, scanner.take(&Any).err(), Some(wanted));
    drop(scanner);
}

fn is_read_whole(rt: &impl Abort, alloc: Global, text: &[u8], wanted: usize) {
    let mut scanner = Scanner::new(alloc, Bytes::new(text)).expect(rt, "a scanner");
    same(rt, scanner.take(&Any), Ok(wanted));
    same(rt, scanner.end(), Ok(()));
    drop(scanner);
}

#[test]
fn a_token_of_65536_bytes_is_refused(rt: HostRuntime) {
    let text = [b'a'; 65536];
    let refused = ScanError::Refused {
        cause: Cause::new(cause::TOKEN_TOO_LONG),
        offset: 0,
    };
    is_refused(&rt, rt.alloc(), &text, refused);
    is_read_whole(&rt, rt.alloc(), &text[1..], 65535);
}

/// It is lent the bytes at hand, and a token that may go on behind them isn't taken.
#[test]
fn a_cursor_takes_the_tokens_at_hand(rt: HostRuntime) {
    let scanner = Scanner::new(rt.alloc(), Bytes::new(b"ab cde fg"));
    let mut scanner = scanner.expect(&rt, "a scanner");
    same(&rt, scanner.take(&Any), Ok(2));
    let mut cursor = scanner.cursor();
    same(&rt, cursor.take(&Any), Ok(3));
    same(&rt, cursor.take(&Any), Err(ScanError::Memory));
    drop(cursor);
    same(&rt, scanner.take(&Any), Ok(3));
    drop(scanner);
}
