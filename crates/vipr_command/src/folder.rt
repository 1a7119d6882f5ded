//! Files by their names.
ghost use Rattle.std.specs.{List.list_any, Prelude.◌≡◌, Prelude.IfOk, Prelude.IfSome, Str.bytes_eq};
ghost use Rattle.vipr_command.specs.Folder.{Files, IsFileOf, Replaces, Unchanged, begun_for};
ghost use Rattle.vipr_command.specs.Folder.{two_files};

use crate::incoming::Incoming;
use std::alloc::{AllocError, Global};
use std::io;
use std::io::ErrorKind;
use vipr_bytes::{Bytes, Sink, WriteFailed};

/// Files that can be read and replaced, by their names.
pub trait Folder {
    // What is known of them.
    ghost known: { Self → Files };

    /// A file that is read from its start.
    type In: Incoming + Drop;

    /// A text that is to replace a file.
    type Out: Sink + Drop;

    /// Opens the file of this name.
    fn open(&self, name: &str) -> io::Result<Self::In>
        ensures { IfSome ((known self.now).holds name.now)
            (λ held. IsFileOf Self.In.input held result) };

    /// Begins a text for this name, which holds what it held.
    ///
    /// # Errors
    ///
    /// A growth is refused.
    fn begin(&self, name: &str) -> Result<Self::Out, AllocError>
        ensures { IfOk result
            (λ text. Self.Out.output text ≡ begun_for (known self.now) name.now) };

    /// Gives this name the text that was begun for it.
    ///
    /// # Errors
    ///
    /// The text is refused, and the name holds what it held; or it may not be on its disk.
    fn keep(&mut self, name: &str, text: Self::Out) -> Result<(), WriteFailed>
        ensures { Replaces (known self.old) (known self.new) name.now (Self.Out.output text)
            result };

    /// Gives up a text that was begun.
    fn abandon(&mut self, text: Self::Out)
        ensures { Unchanged (known self.old) (known self.new) };
}

/// A text in memory, and the names under which it is found.
#[derive(Clone, Copy)]
pub struct NamedText<'a> {
    pub names: &'a [&'a str],
    pub text: &'a [u8],
}

/// Two files in memory. A name that both have is the first one's. A text that replaced another
/// one is never freed.
#[derive(Clone, Copy)]
pub struct TwoFiles<'a> {
    pub alloc: Global,
    pub first: NamedText<'a>,
    pub second: NamedText<'a>,
}

impl<'a> Folder for TwoFiles<'a> {
    ghost known = { λ f. two_files (λ n. list_any (λ m. bytes_eq m.now n) f.first.names.now)
        f.first.text.now (λ n. list_any (λ m. bytes_eq m.now n) f.second.names.now)
        f.second.text.now };

    type In = Bytes<'a>;

    type Out = Vec<u8>;

    fn open(&self, name: &str) -> io::Result<Bytes<'a>> {
        if self.first.names.contains(&name) {
            Ok(Bytes::new(self.first.text))
        } else if self.second.names.contains(&name) {
            Ok(Bytes::new(self.second.text))
        } else {
            Err(io::Error::from(ErrorKind::NotFound))
        }
    }

    fn begin(&self, _name: &str) -> Result<Vec<u8>, AllocError> {
        Ok(Vec::new(self.alloc))
    }

    fn keep(&mut self, name: &str, text: Vec<u8>) -> Result<(), WriteFailed> {
        if self.first.names.contains(&name) {
            self.first.text = text.leak();
        } else if self.second.names.contains(&name) {
            self.second.text = text.leak();
        } else {
            return Err(WriteFailed {
                accepted: text.len() as u64,
            });
        }
        Ok(())
    }

    fn abandon(&mut self, text: Vec<u8>) {
        drop(text);
    }
}
