//! What `vipr tighten` writes, with its figures.

ghost use Rattle.std.specs.Prelude.{◌≡◌, IfOk};
ghost use Rattle.vipr_rules.specs.Profile.{profile_of};
ghost use Rattle.vipr_c.specs.Handed.{profile_numbered};
ghost use Rattle.vipr_c.specs.Written.{IsTightened, TightensBy, figures_of};

use crate::answer::answer_of;
use crate::status_and_text::{NO_MEMORY, NO_PROFILE, StatusAndText, profile_numbered};
use std::alloc::Global;
use vipr_bytes::Bytes;
use vipr_check::Verdict;
use vipr_rules::Profile;
use vipr_tighten::{Outcome, TightenFault, tighten_as};
use vipr_write::Form;

/// What became of a certificate that was to be tightened, in numbers: all but those that the status
/// asks for are 0.
#[repr(C)]
#[derive(Clone, Copy, Debug, PartialEq, Eq)]
pub struct Figures {
    /// If it is refused: the number of its cause.
    pub cause: u32,
    /// If it is refused: 1 at a byte, 2 at a solution, 3 at a derivation, 4 at the end.
    pub place: u32,
    /// The byte's offset, the solution's number from 0, or the derived constraint's index.
    pub number: u64,
    /// If it is tightened: how many derivations were written.
    pub kept: u32,
    /// How many were left out.
    pub removed: u32,
    /// How many derived constraints had to be held at most.
    pub peak_before: u64,
    /// How many of the tightened certificate have to be.
    pub peak_after: u64,
}

const NO_FIGURES: Figures = Figures {
    cause: 0,
    place: 0,
    number: 0,
    kept: 0,
    removed: 0,
    peak_before: 0,
    peak_after: 0,
};

/// The text of the tightened certificate in a form, by the rules of the profile with this number.
pub(crate) fn tightened(
    alloc: Global,
    profile: u32,
    form: Form,
    text: &[u8],
) -> (StatusAndText, Figures)
    ensures { TightensBy (profile_numbered profile) form text.now result.0.status
        result.0.text.items result.1 }
{
    let Some(profile) = profile_numbered(profile) else {
        return (StatusAndText::nothing(alloc, NO_PROFILE), NO_FIGURES);
    };
    match tightened_by(alloc, profile, form, text) {
        Ok(tightened) => tightened,
        Err(_) => (StatusAndText::nothing(alloc, NO_MEMORY), NO_FIGURES),
    }
}

fn tightened_by(
    alloc: Global,
    profile: Profile,
    form: Form,
    text: &[u8],
) -> Result<(StatusAndText, Figures), TightenFault>
    ensures { IfOk result (λ x. IsTightened form text.now (profile_of profile) x.0.status
        x.0.text.items x.1) }
{
    let mut out = Vec::new(alloc);
    let outcome = tighten_as(alloc, profile, form, Bytes::new(text), &mut out)?;
    let made = StatusAndText {
        status: i32::from(outcome.status()),
        text: out,
    };
    Ok((made, figures_of(&outcome)))
}

fn figures_of(outcome: &Outcome) -> Figures
    ensures { result ≡ figures_of outcome.now }
{
    match outcome {
        Outcome::Tightened {
            kept,
            removed,
            peak_before,
            peak_after,
        } => Figures {
            kept: *kept,
            removed: *removed,
            peak_before: *peak_before as u64,
            peak_after: *peak_after as u64,
            ..NO_FIGURES
        },
        Outcome::Refused(refusal) => {
            let answer = answer_of(&Verdict::Refused(*refusal));
            Figures {
                cause: answer.cause,
                place: answer.place,
                number: answer.number,
                ..NO_FIGURES
            }
        }
    }
}
