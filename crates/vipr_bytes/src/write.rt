//! Hands bytes to a sink.
ghost use Rattle.std.specs.Prelude.{◌<◌, length, IfErr, IfSome};
ghost use Rattle.vipr_bytes.specs.Written.{Wrote, EndsAtFailure};

use crate::sink::Sink;

/// A write failed or accepted nothing, after exactly so many bytes were accepted.
#[derive(Clone, Copy, Debug, PartialEq, Eq)]
pub struct WriteFailed {
    /// The bytes of a slice are fewer than 2^64, so the number is exact.
    pub accepted: u64,
}

/// Hands bytes to a sink, until it took all of them.
///
/// # Errors
///
/// If a write fails or takes nothing, and the sink is asked no more.
pub fn write_bytes<W: Sink>(sink: &mut W, bytes: &[u8]) -> Result<(), WriteFailed>
    ensures output { IfSome (W.output sink.old)
        (λ o. Wrote o (W.output sink.new) bytes.now result) }
    ensures part { IfErr result (λ e. e.accepted < length bytes.now) }
    ensures failures { IfSome (W.failures sink.old)
        (λ n. EndsAtFailure n (W.failures sink.new) result) }
{
    let mut accepted = 0;
    while accepted < bytes.len() {
        match sink.write(&bytes[accepted..]) {
            Ok(n) if n > 0 => accepted += n,
            _ => {
                return Err(WriteFailed {
                    accepted: accepted as u64,
                });
            }
        }
    }
    Ok(())
}
