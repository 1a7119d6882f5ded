//! Parts of a certificate, so many in a row.
ghost use Rattle.std.specs.Prelude.{◌≡◌, ◌++◌, ◌∷◌, [], ℕ, ⊤, map, length, All, IfOk, OnOk};
ghost use Rattle.std.specs.Prelude.{is_ok, if◌then◌else◌};
ghost use Rattle.vipr_spec.specs.Reading.{Rest, Read, token_of, read_each};
ghost use Rattle.vipr_read.specs.Parsing.{Parses};

use crate::parser::Parser;
use std::alloc::{AllocError, Global};
use vipr_scan::{Scan, ScanError, TokenKind};

/// A part of a certificate, as a parser reads it if so many variables are known.
pub(crate) trait Part {
    type Value: Drop;

    /// What the definitions say that such a part is.
    ghost Meant: { Type 0 };

    ghost view: { Self.Value → Meant };

    ghost reading: { Self → ℕ → Rest → Read Meant };

    /// What is so of each part, whether or not the source's bytes are known.
    ghost shape: { Self → ℕ → Self.Value → Type 0 } = { λ _ _ _. ⊤ };

    fn parse<S: Scan>(
        &self,
        parser: &mut Parser<S>,
        alloc: Global,
    ) -> Result<Self::Value, ScanError>
        ensures read { Parses view (reading self.now parser.old.variables) parser.old parser.new
            result }
        ensures shape { IfOk result (λ x. shape self.now parser.old.variables x) };
}

/// A token of this kind.
#[derive(Drop)]
pub(crate) struct One<K>(pub(crate) K);

impl<K: TokenKind> Part for One<K> {
    type Value = K::Value;

    ghost Meant = { K.Meant };

    ghost view = { K.view };

    ghost reading = { λ one _. token_of (K.meaning one.0) };

    ghost shape = { λ one _ x. K.bounds one.0 x };

    fn parse<S: Scan>(
        &self,
        parser: &mut Parser<S>,
        _alloc: Global,
    ) -> Result<K::Value, ScanError> {
        parser.take(&self.0)
    }
}

// For how many elements room is made at the first, where so many are to come.
const FIRST_ROOM: usize = 64;

/// Appends an element of a list that is to have so many. Room is made for as many as the list
/// holds, and for none that aren't to come, so that memory grows with what was read.
#[inline(always)]
pub(crate) fn push_among<T: Drop>(
    list: &mut Vec<T>,
    element: T,
    count: u32,
) -> Result<(), AllocError>
    ensures items { list.new.items
        ≡ (if is_ok result then list.old.items ++ element ∷ [] else list.old.items) }
{
    if list.len() == list.capacity() {
        widen(list, count)?;
    }
    match list.push(element) {
        Ok(()) => Ok(()),
        Err(_) => Err(AllocError),
    }
}

// Makes more room for a list that is to have so many elements.
#[inline(never)]
fn widen<T: Drop>(list: &mut Vec<T>, count: u32) -> Result<(), AllocError>
    ensures { list.new.items ≡ list.old.items }
{
    let room = list.len().saturating_mul(2).max(FIRST_ROOM);
    list.reserve_exact(room.min(count as usize).saturating_sub(list.len()))
}

/// So many parts in a row.
pub(crate) fn many<S: Scan, P: Part>(
    parser: &mut Parser<S>,
    alloc: Global,
    part: &P,
    count: u32,
) -> Result<Vec<P::Value>, ScanError>
    ensures read { Parses (λ v. map P.view v.items)
        (read_each (P.reading part.now parser.old.variables) count) parser.old parser.new result }
    ensures count { IfOk result (λ v. length v.items ≡ count) }
    ensures shape { IfOk result (λ v. All (P.shape part.now parser.old.variables) v.items) }
{
    let mut parts = Vec::new(alloc);
    let read = many_into(parser, alloc, part, count, &mut parts);
    read.and(Ok(parts))
}

/// So many parts in a row, put into an empty list.
#[inline(always)]
pub(crate) fn many_into<S: Scan, P: Part>(
    parser: &mut Parser<S>,
    alloc: Global,
    part: &P,
    count: u32,
    parts: &mut Vec<P::Value>,
) -> Result<(), ScanError>
    requires { parts.old.items ≡ [] }
    ensures read { Parses (λ _. map P.view parts.new.items)
        (read_each (P.reading part.now parser.old.variables) count) parser.old parser.new result }
    ensures count { OnOk result (length parts.new.items ≡ count) }
    ensures shape { OnOk result (All (P.shape part.now parser.old.variables) parts.new.items) }
{
    for _ in 0..count {
        let next = part.parse(parser, alloc)?;
        push_among(parts, next, count)?;
    }
    Ok(())
}
