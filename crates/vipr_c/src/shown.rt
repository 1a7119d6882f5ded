//! What `vipr show` writes.

ghost use Rattle.std.specs.Prelude.{◌≡◌};
ghost use Rattle.vipr_text.specs.Spelling.{RespellsText};
ghost use Rattle.vipr_c.specs.Handed.{in_memory};
ghost use Rattle.vipr_c.specs.Written.{ReturnsText, WritesWhole, form_flagged};

use crate::answer::{Answer, NOTHING, answer_of};
use crate::status_and_text::{NO_MEMORY, StatusAndText};
use std::alloc::Global;
use vipr_bytes::Bytes;
use vipr_check::{Place, Refusal, Verdict};
use vipr_scan::TextError;
use vipr_text::respell;
use vipr_write::{FoldedText, Form};

/// The compact form, unless the flag is 0.
pub(crate) fn form_flagged(compact: u32) -> Form
    ensures { result ≡ form_flagged compact }
{
    match compact {
        0 => Form::Canonical,
        _ => Form::Compact,
    }
}

/// The text of the certificate that a text spells, in a form.
pub(crate) fn shown(alloc: Global, form: Form, text: &[u8]) -> (StatusAndText, Answer)
    ensures { ReturnsText form text.now result.0.status result.0.text.items result.1 }
{
    match respelled(alloc, form, text) {
        Ok(whole) => (written(alloc, &whole), NOTHING),
        Err(TextError::Refused { cause, offset }) => (
            StatusAndText::nothing(alloc, 1),
            answer_of(&Verdict::Refused(Refusal {
                cause,
                place: Place::Byte(offset),
            })),
        ),
        Err(_) => (StatusAndText::nothing(alloc, NO_MEMORY), NOTHING),
    }
}

fn respelled(alloc: Global, form: Form, text: &[u8]) -> Result<FoldedText, TextError>
    ensures { RespellsText form (λ text. text.bytes) (in_memory text.now) result }
{
    respell(alloc, form, Bytes::new(text))
}

fn written(alloc: Global, text: &FoldedText) -> StatusAndText
    ensures { WritesWhole text.now.bytes result.status result.text.items }
{
    let mut out = Vec::new(alloc);
    match text.write_to(alloc, &mut out) {
        Ok(()) => StatusAndText {
            status: 0,
            text: out,
        },
        Err(_) => StatusAndText::nothing(alloc, NO_MEMORY),
    }
}
