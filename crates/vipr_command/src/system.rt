//! The system's files: all calls by which the program opens, writes and replaces them.
//!
//! OUT is looked at before the certificate is read, and replaced by a new file if it is the same.
ghost use Rattle.std.specs.Prelude.{None, true};

use crate::folder::Folder;
use crate::host::Host;
use std::alloc::AllocError;
use std::fmt::Write as _;
use std::fs::{File, Metadata, OpenOptions, TryLockError};
use std::io::{ErrorKind, Read, Write};
use std::os::unix::fs::{MetadataExt, OpenOptionsExt, fchown};
use std::path::PathBuf;
use std::{fs, io};
use vipr_bytes::{Failed, FromRead, Sink, WriteFailed};

/// How many links are followed.
const LINKS: u32 = 40;

/// The length of a new file's name, with `./` before it.
const NAME: usize = 36;

/// The system's number of the error that a right is missing.
const EPERM: i32 = 1;

/// The bits of a mode that say who may read, write and run a file.
const RIGHTS: u32 = 0o777;

/// The system's files. What they hold isn't known, nor what the system refuses.
#[derive(Drop)]
pub struct SystemFiles<'a, H> {
    pub rt: &'a H,
}

/// A text for the file at a path. Nothing is made or changed before the first write.
#[derive(Drop)]
pub struct OutFile<'a, H> {
    rt: &'a H,
    /// What the path leads to.
    target: PathBuf,
    /// The path of a new file beside it, or room for that.
    name: String,
    /// What was there at the start, until the first write, if it may be written.
    before: Option<Before>,
    destination: Option<Destination>,
    count: u64,
}

/// What is at a path.
#[derive(Drop)]
enum Before {
    Nothing,
    /// A regular file, which is open, so that no other file gets its inode.
    Regular(File),
    /// Another thing, or an open file by a link that the system makes for it.
    Other(Metadata),
}

/// What the text goes to: what was there, or a new file, and the old one if that is replaced.
#[derive(Drop)]
enum Destination {
    InPlace(File),
    Beside { new: File, old: Option<File> },
}

impl<'a, H: Host> Folder for SystemFiles<'a, H> {
    ghost known = { λ _. record {
      holds = λ _. None;
      same = λ _ _. true;
      room = λ _. None;
      may_refuse = λ _. true;
      may_fail_late = λ _. true;
    } };

    type In = FromRead<File>;

    type Out = OutFile<'a, H>;

    // A folder can be opened, so one read of no bytes finds out that it can't be read.
    fn open(&self, name: &str) -> io::Result<FromRead<File>> {
        let mut file = File::open(self.rt, name)?;
        let _none = file.read(&mut [])?;
        Ok(FromRead::new(file))
    }

    fn begin(&self, name: &str) -> Result<OutFile<'a, H>, AllocError> {
        let target = end_of(self.rt, name)?;
        let room = target.as_str().len().saturating_add(NAME);
        Ok(OutFile {
            rt: self.rt,
            name: String::with_capacity(self.rt.alloc(), room)?,
            before: look(self.rt, name, target.as_str()).ok(),
            target,
            destination: None,
            count: 0,
        })
    }

    fn keep(&mut self, name: &str, text: OutFile<'a, H>) -> Result<(), WriteFailed> {
        let accepted = text.count;
        match text.end(name) {
            Ok(()) => Ok(()),
            Err(_) => Err(WriteFailed { accepted }),
        }
    }

    fn abandon(&mut self, text: OutFile<'a, H>) {
        if let Some(Destination::Beside { new, .. }) = &text.destination {
            text.remove(new);
        }
    }
}

impl<H: Host> Sink for OutFile<'_, H> {
    ghost output = { λ _. None };

    ghost failures = { λ _. None };

    fn write(&mut self, bytes: &[u8]) -> Result<usize, Failed> {
        if let Some(before) = self.before.take() {
            self.destination = self.open(before).ok();
        }
        let written = match &mut self.destination {
            Some(Destination::InPlace(file) | Destination::Beside { new: file, .. }) => {
                file.write(bytes)
            }
            None => return Err(Failed),
        };
        let Ok(n) = written else { return Err(Failed) };
        self.count = self.count.saturating_add(n as u64);
        Ok(n)
    }
}

impl<H: Host> OutFile<'_, H> {
    /// What the text goes to, if what was there still is.
    #[inline(never)]
    fn open(&mut self, before: Before) -> io::Result<Destination> {
        match before {
            Before::Nothing => {
                let new = self.create(0o666)?;
                Ok(Destination::Beside { new, old: None })
            }
            Before::Regular(old) => {
                self.is_at(self.target.as_str(), &old)?;
                self.open_beside(old)
            }
            Before::Other(found) => {
                let target = self.target.as_str();
                let file = File::options().write(true).open(self.rt, target)?;
                is_same(&file.metadata()?, &found)?;
                open_in_place(file)
            }
        }
    }

    /// This for a regular file. It is written in place only if there is no right to replace it.
    fn open_beside(&mut self, old: File) -> io::Result<Destination> {
        let new = match self.create(0o600) {
            Ok(new) => new,
            Err(error) => match error.kind() {
                ErrorKind::PermissionDenied | ErrorKind::ReadOnlyFilesystem => {
                    return open_in_place(old);
                }
                _ => return Err(error),
            },
        };
        let Err(error) = prepare(&new, &old) else {
            let old = Some(old);
            return Ok(Destination::Beside { new, old });
        };
        self.remove(&new);
        if error.raw_os_error() == Some(EPERM) || error.kind() == ErrorKind::Unsupported {
            return open_in_place(old);
        }
        Err(error)
    }

    /// A new file beside what the path leads to, which is created with this mode.
    fn create(&mut self, mode: u32) -> io::Result<File> {
        let mut bytes = [0u8; 8];
        self.rt.fill_bytes(&mut bytes)?;
        let number = u64::from_le_bytes(bytes);
        let folder = folder_of(self.target.as_str());
        self.name.clear();
        write!(self.name, "{folder}/.vipr-tighten-{number:016x}.tmp")?;
        let mut options = OpenOptions::new();
        options.write(true).create_new(true).mode(mode);
        options.open(self.rt, self.name.as_str())
    }

    /// Ends a text that was written whole: OUT has it then.
    fn end(&self, path: &str) -> io::Result<()> {
        match &self.destination {
            None => Ok(()),
            Some(Destination::InPlace(file)) => {
                sync(file)?;
                self.is_end_of(path, file)
            }
            Some(Destination::Beside { new, old }) => {
                let named = self.give_name(path, new, old.as_ref());
                self.remove(new);
                named?;
                self.sync_folder()?;
                self.is_end_of(path, new)
            }
        }
    }

    /// Brings the folder's names to its disk, if it can be opened.
    fn sync_folder(&self) -> io::Result<()> {
        match File::open(self.rt, folder_of(self.target.as_str())) {
            Ok(folder) => sync(&folder),
            Err(_) => Ok(()),
        }
    }

    /// Gives the new file OUT's name, if the old one or nothing is still there.
    fn give_name(&self, path: &str, new: &File, old: Option<&File>) -> io::Result<()> {
        let (name, target) = (self.name.as_str(), self.target.as_str());
        // Nobody else may read it before it is whole on its disk.
        sync(new)?;
        if let Some(old) = old {
            give_rights(new, old)?;
            sync(new)?;
        }
        self.is_at(name, new)?;
        if let Some(old) = old {
            self.is_end_of(path, old)?;
            self.is_at(target, old)?;
            return fs::rename(self.rt, name, target);
        }
        let linked = fs::hard_link(self.rt, name, target);
        // Some file systems have no second names.
        if linked.is_err() && self.is_free(target) {
            return fs::rename(self.rt, name, target);
        }
        linked
    }

    /// Whether nothing has this name.
    fn is_free(&self, name: &str) -> bool {
        match fs::symlink_metadata(self.rt, name) {
            Err(error) => error.kind() == ErrorKind::NotFound,
            Ok(_) => false,
        }
    }

    /// Removes a new file, if its name is still its own.
    fn remove(&self, new: &File) {
        if self.is_at(self.name.as_str(), new).is_ok() {
            let _ = fs::remove_file(self.rt, self.name.as_str());
        }
    }

    /// Is an error if this name isn't that of an open file.
    fn is_at(&self, name: &str, file: &File) -> io::Result<()> {
        is_same(&file.metadata()?, &fs::symlink_metadata(self.rt, name)?)
    }

    /// Is an error if a path doesn't lead to an open file.
    fn is_end_of(&self, path: &str, file: &File) -> io::Result<()> {
        is_same(&file.metadata()?, &fs::metadata(self.rt, path)?)
    }
}

/// Is an error if these are two files. One that is gone may have left its inode to another one.
fn is_same(one: &Metadata, other: &Metadata) -> io::Result<()> {
    if one.dev() != other.dev() || one.ino() != other.ino() || one.is_file() != other.is_file() {
        return Err(io::Error::from(ErrorKind::AlreadyExists));
    }
    Ok(())
}

/// What a path leads to: its end, or the link on the way that the system makes for an open file.
fn end_of<H: Host>(rt: &H, path: &str) -> Result<PathBuf, AllocError> {
    let mut end = PathBuf::from_str(rt.alloc(), path)?;
    for _ in 0..LINKS {
        if is_of_system(rt, end.as_str()) {
            break;
        }
        match fs::read_link(rt, end.as_str()) {
            Ok(link) => {
                end.pop();
                end.push(link.as_str())?;
            }
            Err(error) if error.kind() == ErrorKind::OutOfMemory => return Err(AllocError),
            Err(_) => break,
        }
    }
    Ok(end)
}

/// Whether a path is among those that the system has for open files.
fn is_of_system<H: Host>(rt: &H, path: &str) -> bool {
    let own = fs::symlink_metadata(rt, "/proc/self");
    match (fs::symlink_metadata(rt, path), own) {
        (Ok(found), Ok(own)) => found.dev() == own.dev(),
        _ => false,
    }
}

/// What is at a path, whose end is `target`. The system follows its links, so it may forbid that.
fn look<H: Host>(rt: &H, path: &str, target: &str) -> io::Result<Before> {
    match fs::metadata(rt, path) {
        Ok(found) if found.is_file() && !is_of_system(rt, target) => Ok(Before::Regular(
            File::options().write(true).open(rt, path)?,
        )),
        Ok(found) => Ok(Before::Other(found)),
        Err(error) if error.kind() == ErrorKind::NotFound && !path.is_empty() => {
            Ok(Before::Nothing)
        }
        Err(error) => Err(error),
    }
}

/// A file that is written in place. A regular one is locked to the end, if it can be, and emptied.
fn open_in_place(file: File) -> io::Result<Destination> {
    if file.metadata()?.is_file() {
        if let Err(TryLockError::WouldBlock) = file.try_lock() {
            return Err(io::Error::from(ErrorKind::WouldBlock));
        }
        file.set_len(0)?;
    }
    Ok(Destination::InPlace(file))
}

/// Gives an empty new file the owner and the group of an old one, and sets its permissions to what
/// they are: an error if they can't be set.
fn prepare(new: &File, old: &File) -> io::Result<()> {
    give_owner(new, old)?;
    let own = new.metadata()?;
    if own.mode() != old.metadata()?.mode() {
        new.set_permissions(own.permissions())?;
    }
    Ok(())
}

/// Gives a whole new file the owner, the group and the permissions of an old one.
fn give_rights(new: &File, old: &File) -> io::Result<()> {
    give_owner(new, old)?;
    let other = old.metadata()?;
    if new.metadata()?.mode() != other.mode() {
        new.set_permissions(other.permissions())?;
        // Some file systems only say that they changed them.
        if new.metadata()?.mode() & RIGHTS != other.mode() & RIGHTS {
            return Err(io::Error::from(ErrorKind::Unsupported));
        }
    }
    Ok(())
}

fn give_owner(new: &File, old: &File) -> io::Result<()> {
    let other = old.metadata()?;
    if !has_owner_of(new, &other)? {
        fchown(new, Some(other.uid()), Some(other.gid()))?;
        if !has_owner_of(new, &other)? {
            return Err(io::Error::from(ErrorKind::Unsupported));
        }
    }
    Ok(())
}

/// Whether a file has the owner and the group of another one.
fn has_owner_of(file: &File, other: &Metadata) -> io::Result<bool> {
    let own = file.metadata()?;
    Ok(own.uid() == other.uid() && own.gid() == other.gid())
}

/// Brings what a file took to its disk, if there is one.
fn sync(file: &File) -> io::Result<()> {
    match file.sync_all() {
        Err(error) => match error.kind() {
            ErrorKind::InvalidInput | ErrorKind::Unsupported => Ok(()),
            _ => Err(error),
        },
        synced => synced,
    }
}

fn folder_of(path: &str) -> &str {
    match path.rsplit_once('/') {
        Some(("", _)) => "/",
        Some((folder, _)) => folder,
        None => ".",
    }
}
