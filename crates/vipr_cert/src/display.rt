//! How claims and names are printed.
ghost use Rattle.std.specs.Prelude.{Some};
ghost use Rattle.vipr_cert.specs.Text.{claim_text, name_text};

use crate::items::Claim;
use crate::name::Name;
use bstr::ByteSlice;
use std::fmt;
use std::fmt::{Display, Formatter, Write};

/// As in a certificate: `infeas`, or `range` and both bounds, the infinite ones as `-inf` and
/// `inf`.
impl Display for Claim {
    ghost output = { λ c. Some (claim_text c) };

    fn fmt<W: Write>(&self, f: &mut Formatter<W>) -> fmt::Result {
        match self {
            Claim::Infeas => f.write_str("infeas"),
            Claim::Range(None, None) => f.write_str("range -inf inf"),
            Claim::Range(Some(lower), None) => write!(f, "range {lower} inf"),
            Claim::Range(None, Some(upper)) => write!(f, "range -inf {upper}"),
            Claim::Range(Some(lower), Some(upper)) => write!(f, "range {lower} {upper}"),
        }
    }
}

/// The bytes of the name, with each byte escaped that isn't printable.
impl Display for Name {
    ghost output = { λ name. Some (name_text name) };

    fn fmt<W: Write>(&self, f: &mut Formatter<W>) -> fmt::Result {
        write!(f, "{}", self.as_bytes().escape_bytes())
    }
}
