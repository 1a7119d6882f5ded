ghost use Rattle.std.specs.Prelude.{◌≡◌, Option, IfOk, OnOk};
ghost use Rattle.vipr_spec.specs.Reading.{Rest, token_of};
ghost use Rattle.vipr_scan.specs.{Giving.Scans, Hand.Hand};

use crate::error::ScanError;
use crate::kind::TokenKind;

/// What gives the tokens of a text one by one.
pub trait Scan {
    /// The bytes at hand that it stays within, if it does.
    ghost home: { Self → Option Hand };

    /// The rest of the text, if that is known.
    ghost rest: { Self → Option Rest };

    /// The next token, which is of this kind.
    fn take<K: TokenKind>(&mut self, kind: &K) -> Result<K::Value, ScanError>
        ensures home { home self.new ≡ home self.old }
        ensures read { Scans K.view (token_of (K.meaning kind.now)) (rest self.old)
            (rest self.new) result }
        ensures bounds { IfOk result (λ x. K.bounds kind.now x) };

    /// The next token, which is of this kind, in place of another value.
    fn take_into<K: TokenKind>(&mut self, kind: &K, place: &mut K::Value) -> Result<(), ScanError>
        ensures into_home { home self.new ≡ home self.old }
        ensures into_read { Scans (λ _. K.view place.new) (token_of (K.meaning kind.now))
            (rest self.old) (rest self.new) result }
        ensures into_bounds { OnOk result (K.bounds kind.now place.new) };
}
