//! The name of a cause.

ghost use Rattle.std.specs.Prelude.{◌≡◌};
ghost use Rattle.vipr_spec.specs.Causes.{cause_name};

use vipr_check::cause;

/// The name of a cause, as in the table of causes; empty for a number that is none.
pub(crate) fn of_cause(cause: u32) -> &'static str
    ensures { result.now ≡ cause_name cause }
{
    match u8::try_from(cause) {
        Ok(cause) => cause::name(cause),
        Err(_) => "",
    }
}
