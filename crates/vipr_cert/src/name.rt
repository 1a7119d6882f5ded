//! Names of variables, constraints, solutions and derivations.
//!
//! A [`Name`] is the bytes of a token: between 1 and 65,535, of which none is white space. They
//! need not be text. A name of at most 30 bytes takes no memory of its own.
ghost use Rattle.std.specs.Prelude.{◌≡◌, ◌↔◌, ◌≤◌, ℕ, List, ◌∷◌, [], length, take};
ghost use Rattle.std.specs.Prelude.{IsOk, IfOk, OnOk, OnErr, IsTrue};
ghost use Rattle.bstr.specs.{Owned.bstring_bytes, Show.debug_text};
ghost use Rattle.std.specs.Coded.{coded_ℕ, coded_list};
ghost use Rattle.vipr_spec.specs.Tokens.{is_white, IsToken};
ghost use Rattle.vipr_cert.specs.Names.{name_bytes};

use crate::bytes::NameBytes;
use crate::short::Short;
use bstr::{BStr, BString};
use std::alloc::{AllocError, Global};
use std::fmt;
use std::marker::Model;
use std::mem::replace;

/// A name, an index or a count is outside the limits of the format.
#[derive(Clone, Copy, Debug, PartialEq, Eq)]
pub struct BadShape;

/// The name of a variable, a constraint, a solution or a derivation: the bytes of a token, which
/// need not be text.
#[derive(Drop)]
pub struct Name {
    bytes: NameBytes,
}

impl Model for Name {
    ghost Value = { List ℕ };

    ghost coded = { coded_list coded_ℕ };

    ghost view = { λ n. name_bytes n.bytes };

    ghost invariant = { λ n. IsToken (name_bytes n.bytes) };
}

impl fmt::Debug for Name {
    ghost debug_output = { λ name. debug_text name };

    fn fmt<W: fmt::Write>(&self, formatter: &mut fmt::Formatter<W>) -> fmt::Result {
        fmt::Debug::fmt(&BStr::new(self.as_bytes()), formatter)
    }
}

impl Clone for Name {
    ghost is_clone = { λ name copy. copy ≡ name };

    fn clone(&self) -> Result<Name, AllocError> {
        Ok(Name {
            bytes: self.bytes.try_copy()?,
        })
    }
}

impl Name {
    /// The name of these bytes.
    ///
    /// # Errors
    ///
    /// `BadShape` if they aren't those of a token: at least one and at most 65,535, none of
    /// which is white space.
    pub fn new(bytes: BString) -> Result<Name, BadShape>
        ensures shape { IsOk result ↔ IsToken (bstring_bytes bytes) }
        ensures name { IfOk result (λ n. n ≡ bstring_bytes bytes) }
    {
        if !is_token(bytes.as_bytes()) {
            return Err(BadShape);
        }
        Ok(Name {
            bytes: NameBytes::of_owned(bytes),
        })
    }

    // The name `-`. It takes no memory.
    pub(crate) fn blank() -> Name
        ensures { result ≡ 45 ∷ [] }
    {
        Name {
            bytes: NameBytes::Short(Short::of(b"-")),
        }
    }

    /// Takes the name out, and leaves the name `-`. It takes no memory.
    pub fn take(&mut self) -> Name
        ensures name { result ≡ self.old }
        ensures blank { self.new ≡ 45 ∷ [] }
    {
        replace(self, Name::blank())
    }

    /// A name of these bytes, which are those of a token.
    #[inline(always)]
    pub fn of_token(alloc: Global, bytes: &[u8]) -> Result<Name, AllocError>
        requires { IsToken bytes.now }
        ensures { IfOk result (λ n. n ≡ bytes.now) }
    {
        Ok(Name {
            bytes: NameBytes::of(alloc, bytes)?,
        })
    }

    /// The first bytes of these, which are those of a token, in place of those before. If there is
    /// no memory, those before stay.
    #[inline(always)]
    pub fn set_front(&mut self, alloc: Global, bytes: &[u8], len: usize) -> Result<(), AllocError>
        requires within { len ≤ length bytes.now }
        requires token { IsToken (take len bytes.now) }
        ensures bytes { OnOk result (self.new ≡ take len bytes.now) }
        ensures kept { OnErr result (self.new ≡ self.old) }
    {
        self.bytes.set_front(alloc, bytes, len)
    }

    /// The bytes, which are those of a token.
    #[inline(always)]
    pub fn as_bytes(&self) -> &[u8]
        ensures bytes { result.now ≡ self.now }
        ensures token { IsToken self.now }
    {
        self.bytes.as_slice()
    }
}

// Whether a byte is white space.
#[tactic(auto, unfolding(vipr_spec::specs::Tokens::is_white))]
fn is_white(byte: u8) -> bool
    ensures { result ≡ is_white byte }
{
    (9 <= byte && byte <= 13) || byte == 32
}

/// The most bytes of a token, and so of a name.
pub const MOST_BYTES: usize = 65_535;

// Whether the bytes are those of a token.
fn is_token(bytes: &[u8]) -> bool
    ensures { IsTrue result ↔ IsToken bytes.now }
{
    !bytes.is_empty() && bytes.len() <= MOST_BYTES && bytes.iter().all(|byte| !is_white(*byte))
}
