//! A mark beside a shared value, by which two references to one value are known as such.
ghost use Rattle.std.specs.Prelude.{◌≡◌, IsTrue};
ghost use base.Fml.{fex, fsep};
ghost use Rattle.vipr_shared.specs.Ownership.{is_zero, behind_a_ref};

use std::marker::{Move, Owns, PhantomData};

/// A word that is 0, but for the time of a call of `is_one`. Its value is that of the type that it
/// is beside.
#[derive(Drop)]
pub(crate) struct Mark<T> {
    word: usize,
    marker: PhantomData<T>,
}

impl<T> Owns for Mark<T> {
    ghost Value = { T };

    ghost shr_at = { λ x p κ. behind_a_ref Fields (λ i. is_zero i.word) T.row.coded x p κ };
}

impl<T> Move for Mark<T> {
    ghost own_val = { λ x vs. fex Inside (λ i. fsep (Fields.own_val i vs) (is_zero i.word)) };
}

impl<T> Mark<T> {
    /// A mark for a value.
    pub(crate) fn new(_value: &T) -> Mark<T>
        ensures { result ≡ _value.now }
    {
        Mark {
            word: 0,
            marker: PhantomData,
        }
    }

    /// Whether both are one mark. `true` says that their values are equal.
    pub(crate) fn is_one(&self, other: &Mark<T>) -> bool
        ensures { IsTrue result → self.now ≡ other.now }
    {
        let ours = &raw const self.word as *mut usize;
        let theirs = &raw const other.word as *mut usize;
        unsafe {
            ours.write(1);
            let read = theirs.read();
            ours.write(0);
            read == 1
        }
    }
}
