//! Reads a whole certificate into memory.
//!
//! [`read_certificate`] is for callers that need all items at once, as to write or to change them.
//! A check needs one item at a time, and reads them by [`crate::CertReader`].
ghost use Rattle.std.specs.Prelude.{◌≡◌, ◌≢◌, ◌⊎◌, Ok, Err, IfOk, IfErr, IsSome, map};
ghost use Rattle.vipr_spec.specs.Certificate.{Certificate as CertificateMeant, variables};
ghost use Rattle.vipr_spec.specs.{Grammar.Spells, Reading.certificate_read, Shape.CanWrite};
ghost use Rattle.vipr_cert.specs.Items.{certificate_with, derivation_of};
ghost use Rattle.vipr_bytes.specs.Known.{text_of, IfKnown, IfWhole};
ghost use Rattle.vipr_scan.specs.Giving.{rest_of};
ghost use Rattle.vipr_read.specs.Limits.{CanWriteDerivations};
ghost use Rattle.vipr_read.specs.Whole.{IsParsed, IsRead, items_behind, derived_read};

use crate::item::{Derived, Listed, all};
use crate::parser::Parser;
use std::alloc::Global;
use vipr_bytes::Source;
use vipr_cert::{Certificate, Derivation, Named, Problem};
use vipr_linear::Solution;
use vipr_scan::{ScanError, Scanner, TextError};

/// The certificate that `source` gives, which is read to its end.
///
/// # Errors
///
/// `Refused` if the text spells no certificate, `Read` if a read fails before that is known,
/// and `Memory` if a growth is refused.
///
/// # Example
///
/// ```rust crates/vipr_example/src/text.rt
/// let certificate = read_certificate(alloc, Bytes::new(text))?;
/// ```
pub fn read_certificate<R: Source + Drop>(
    alloc: Global,
    source: R,
) -> Result<Certificate, TextError>
    ensures error { IfErr result (λ e. e ≢ TextError.Spent) }
    // What is read, and what is refused, is that of the definitions for the bytes that the source
    // gives, in whatever pieces.
    ensures read { IfKnown (R.input source)
        (λ i. IsRead (λ c. c) result (certificate_read (text_of i))) }
    // A certificate that was read is what the text spells.
    ensures spelled { IfWhole (R.input source) (λ bytes. IfOk result (λ c. Spells bytes c)) }
    // Whatever the text spells is read, unless memory runs out.
    ensures only { IfWhole (R.input source) (λ bytes. (c : CertificateMeant) → Spells bytes c
        → (result ≡ Ok c) ⊎ (result ≡ Err TextError.Memory)) }
{
    let scanner = Scanner::new(alloc, source)?;
    let parser = Parser::new(alloc, scanner);
    match whole(alloc, parser) {
        Ok(certificate) => Ok(certificate),
        Err(stop) => Err(TextError::from(stop)),
    }
}

// The certificate that the parser is at the start of.
fn whole<R: Source + Drop>(
    alloc: Global,
    mut parser: Parser<Scanner<R>>,
) -> Result<Certificate, ScanError>
    ensures { IsSome parser.rest
        → IsParsed (λ c. c) result (certificate_read (rest_of parser.rest)) }
{
    parts(alloc, &mut parser)
}

// The certificate that the caller's parser reads.
fn parts<R: Source>(
    alloc: Global,
    parser: &mut Parser<Scanner<R>>,
) -> Result<Certificate, ScanError>
    ensures { IsSome parser.old.rest
        → IsParsed (λ c. c) result (certificate_read (rest_of parser.old.rest)) }
{
    let (problem, count) = parser.problem(alloc)?;
    match items(alloc, parser, &problem, count) {
        Ok((solutions, derivations)) => {
            Ok(Certificate::of_parts(problem, solutions, derivations))
        }
        Err(stop) => {
            drop(problem);
            Err(stop)
        }
    }
}

// The solutions, of which there are so many, and the derivations.
fn items<R: Source>(
    alloc: Global,
    parser: &mut Parser<Scanner<R>>,
    problem: &Problem,
    count: u32,
) -> Result<(Vec<Named<Solution>>, Vec<Derivation>), ScanError>
    requires { parser.old.variables ≡ variables problem.now }
    ensures read { IsSome parser.old.rest
        → IsParsed (λ x. certificate_with problem.now x.0.items x.1.items) result
        (items_behind problem.now count (rest_of parser.old.rest)) }
    ensures writes { IfOk result
        (λ x. CanWrite (certificate_with problem.now x.0.items x.1.items)) }
{
    let solutions = all(parser, alloc, &Listed, problem.objective(), count)?;
    let derivations = derivations(alloc, parser, problem)?;
    Ok((solutions, derivations))
}

// The derivations, and the end of the text behind them.
fn derivations<R: Source>(
    alloc: Global,
    parser: &mut Parser<Scanner<R>>,
    problem: &Problem,
) -> Result<Vec<Derivation>, ScanError>
    requires { parser.old.variables ≡ variables problem.now }
    ensures read { IsSome parser.old.rest → IsParsed (λ v. map derivation_of v.items) result
        (derived_read problem.now (rest_of parser.old.rest)) }
    ensures derivations { IfOk result
        (λ v. CanWriteDerivations problem.now (map derivation_of v.items)) }
{
    let count = parser.derivation_count(problem.cons().len() as u32)?;
    let derivations = all(parser, alloc, &Derived, problem.objective(), count)?;
    parser.end()?;
    Ok(derivations)
}
