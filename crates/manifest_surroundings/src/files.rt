//! Reading files whose size has a limit, and texts in their place; and writing a file whole or not at all.

use crate::paths::{folder_of, join};
use manifest_lint::Document;
use std::alloc::{AllocError, Global};
use std::collections::BTreeMap;
use std::fs::{File, OpenFile};
use std::io::{ErrorKind, Read, Write};
use std::rt::Files;
use std::{fmt, fs, io};

/// Why a file was not read.
#[derive(Drop)]
pub enum Unreadable {
    Io(io::Error),
    /// A folder, a pipe or a device.
    NotAFile,
    /// It has this many bytes, which is over the limit.
    TooLarge(u64),
}

impl fmt::Display for Unreadable {
    fn fmt<W: fmt::Write>(&self, f: &mut fmt::Formatter<W>) -> fmt::Result {
        match self {
            Unreadable::Io(fault) => write!(f, "{fault}"),
            Unreadable::NotAFile => f.write_str("it is no file"),
            Unreadable::TooLarge(size) => {
                write!(
                    f,
                    "it has {size} bytes, which is over the limit (see --max-size)"
                )
            }
        }
    }
}

impl Unreadable {
    /// `Ok` where the file cannot be read, and the error where memory ran out.
    pub(crate) fn unless_out_of_memory(self) -> Result<(), AllocError> {
        match self {
            Unreadable::Io(fault) if fault.kind() == ErrorKind::OutOfMemory => Err(AllocError),
            _ => Ok(()),
        }
    }
}

impl From<io::Error> for Unreadable {
    fn from(fault: io::Error) -> Unreadable {
        Unreadable::Io(fault)
    }
}

impl From<AllocError> for Unreadable {
    fn from(fault: AllocError) -> Unreadable {
        Unreadable::Io(io::Error::from(fault))
    }
}

/// All that is left in a reader, if it is not over the limit.
pub fn read_limited<R: Read>(
    alloc: Global,
    reader: &mut R,
    most: u64,
) -> Result<Vec<u8>, Unreadable> {
    let mut bytes = Vec::new(alloc);
    let mut chunk = [0u8; 16384];
    for _ in 0..u64::MAX {
        match reader.read(&mut chunk) {
            Ok(0) => return Ok(bytes),
            Ok(count) => bytes.extend_from_slice(&chunk[..count])?,
            Err(fault) if fault.kind() == ErrorKind::Interrupted => {}
            Err(fault) => return Err(Unreadable::Io(fault)),
        }
        let size = bytes.len() as u64;
        if size > most {
            return Err(Unreadable::TooLarge(size));
        }
    }
    Ok(bytes)
}

/// The bytes of a file. What is no file is not opened, and what is over the limit is not read.
fn read_file<H: Files + AllocGlobal>(rt: &H, path: &str, most: u64) -> Result<Vec<u8>, Unreadable> {
    let metadata = fs::metadata(rt, path)?;
    if !metadata.is_file() {
        return Err(Unreadable::NotAFile);
    }
    if metadata.len() > most {
        return Err(Unreadable::TooLarge(metadata.len()));
    }
    let mut file = fs::open(rt, path)?;
    read_limited(rt.alloc(), &mut file, most)
}

/// The document that these bytes are, if they are one.
pub fn document_of(alloc: Global, bytes: &[u8]) -> Result<Option<Document>, AllocError> {
    match Document::read(alloc, bytes) {
        Ok(document) => Ok(Some(document)),
        Err(manifest_lint::Unread::Memory(fault)) => Err(fault),
        Err(_) => Ok(None),
    }
}

/// What reads files: none of more than `most` bytes, and in the place of some the text that an editor has of them.
#[derive(Drop)]
pub struct Reader {
    pub most: u64,
    /// By the absolute paths of the files.
    pub texts: BTreeMap<String, String>,
}

impl Reader {
    /// What reads files of up to `most` bytes, with no text in the place of one.
    pub fn new(alloc: Global, most: u64) -> Reader {
        Reader {
            most,
            texts: BTreeMap::new(alloc),
        }
    }

    /// The bytes of a file, or of the text in its place.
    pub fn read<H: Files + AllocGlobal>(&self, rt: &H, path: &str) -> Result<Vec<u8>, Unreadable> {
        match self.texts.get(path) {
            Some(text) => {
                let mut bytes = Vec::new(rt.alloc());
                bytes.extend_from_slice(text.as_bytes())?;
                Ok(bytes)
            }
            None => read_file(rt, path, self.most),
        }
    }

    /// The bytes of a file, or of the text in its place; `None` where it cannot be read.
    pub fn bytes<H: Files + AllocGlobal>(
        &self,
        rt: &H,
        path: &str,
    ) -> Result<Option<Vec<u8>>, AllocError> {
        match self.read(rt, path) {
            Ok(bytes) => Ok(Some(bytes)),
            Err(fault) => fault.unless_out_of_memory().and(Ok(None)),
        }
    }

    /// The document of a file, or of the text in its place; `None` where that is not TOML or cannot be read.
    pub(crate) fn document<H: Files + AllocGlobal>(
        &self,
        rt: &H,
        path: &str,
    ) -> Result<Option<Document>, AllocError> {
        match self.bytes(rt, path)? {
            Some(bytes) => document_of(rt.alloc(), bytes.as_slice()),
            None => Ok(None),
        }
    }

    /// Whether a path leads to a file, or to a text in the place of one.
    pub fn is_file<H: Files>(&self, rt: &H, path: &str) -> bool {
        self.texts.contains_key(path) || is_file(rt, path)
    }
}

/// A path, and why what it leads to was not read.
#[derive(Drop)]
pub struct Unread {
    pub path: String,
    pub reason: String,
}

impl Unread {
    /// A path with a fault of the system.
    pub fn new(alloc: Global, path: &str, fault: &io::Error) -> Result<Unread, AllocError> {
        Ok(Unread {
            path: String::from_str(alloc, path)?,
            reason: format!(in alloc; "{fault}")?,
        })
    }
}

/// Why a file was not replaced.
#[derive(Drop)]
pub enum NotReplaced {
    Io(io::Error),
    /// It is no longer what was read.
    Changed,
}

impl fmt::Display for NotReplaced {
    fn fmt<W: fmt::Write>(&self, f: &mut fmt::Formatter<W>) -> fmt::Result {
        match self {
            NotReplaced::Io(fault) => write!(f, "{fault}"),
            NotReplaced::Changed => f.write_str("it has changed meanwhile"),
        }
    }
}

impl From<io::Error> for NotReplaced {
    fn from(fault: io::Error) -> NotReplaced {
        NotReplaced::Io(fault)
    }
}

impl From<AllocError> for NotReplaced {
    fn from(fault: AllocError) -> NotReplaced {
        NotReplaced::Io(io::Error::from(fault))
    }
}

/// How many names are tried for the new file.
const TRIES: usize = 64;

/// A new file in the folder of another, and its path.
fn new_beside<H: Files + AllocGlobal>(rt: &H, path: &str) -> io::Result<(String, H::File)> {
    let alloc = rt.alloc();
    for number in 0..TRIES {
        let name = format!(in alloc; ".Cargo.toml.manifest_check-{number}.tmp")?;
        let new = join(alloc, folder_of(path), name.as_str())?;
        match File::create_new(rt, new.as_str()) {
            Ok(file) => return Ok((new, file)),
            Err(fault) if fault.kind() == ErrorKind::AlreadyExists => {}
            Err(fault) => return Err(fault),
        }
    }
    Err(io::Error::from(ErrorKind::AlreadyExists))
}

/// Writes the text to the new file, with the permissions of the old one, down to the disk.
fn fill<H: Files>(rt: &H, path: &str, file: H::File, text: &str) -> io::Result<()> {
    let mut file = file;
    let metadata = fs::metadata(rt, path)?;
    file.set_permissions(metadata.permissions())?;
    file.write_all(text.as_bytes())?;
    file.flush()?;
    file.sync_all()
}

/// Puts the new file in the place of the old one, if that is still what was read.
fn put_in_place<H: Files + AllocGlobal>(
    rt: &H,
    path: &str,
    new: &str,
    old: &str,
) -> Result<(), NotReplaced> {
    let most = (old.len() as u64).saturating_add(1);
    match read_file(rt, path, most) {
        Ok(bytes) if bytes.as_slice() == old.as_bytes() => {}
        Ok(_) => return Err(NotReplaced::Changed),
        Err(Unreadable::Io(fault)) => return Err(NotReplaced::Io(fault)),
        Err(_) => return Err(NotReplaced::Changed),
    }
    fs::rename(rt, new, path)?;
    Ok(())
}

/// Replaces the text of a file by another, whole or not at all: the new text is written to a file of its own in the same
/// folder, with the permissions of the old one, and then takes its place. A link stays a link.
pub fn replace_file<H: Files + AllocGlobal>(
    rt: &H,
    path: &str,
    old: &str,
    text: &str,
) -> Result<(), NotReplaced> {
    let real = fs::canonicalize(rt, path)?;
    let real = real.as_str();
    let (new, file) = new_beside(rt, real)?;
    let filled = match fill(rt, real, file, text) {
        Ok(()) => put_in_place(rt, real, new.as_str(), old),
        Err(fault) => Err(NotReplaced::Io(fault)),
    };
    if filled.is_err() {
        let _ = fs::remove_file(rt, new.as_str());
    }
    filled
}

/// The names in a folder; one that is not UTF-8 is left out.
fn list<H: Files + AllocGlobal + Clone + Drop>(rt: &H, folder: &str) -> io::Result<Vec<String>> {
    let alloc = rt.alloc();
    let mut names = Vec::new(alloc);
    for entry in fs::read_dir(rt, folder)? {
        match entry {
            Ok(entry) => names.push(String::from_str(alloc, entry.file_name())?)?,
            Err(fault) if fault.kind() == ErrorKind::InvalidFilename => {}
            Err(fault) => return Err(fault),
        }
    }
    Ok(names)
}

/// The names in a folder, but those that are not UTF-8; `None` where it cannot be listed.
pub fn names_in<H: Files + AllocGlobal + Clone + Drop>(
    rt: &H,
    folder: &str,
) -> Result<Option<Vec<String>>, AllocError> {
    match list(rt, folder) {
        Ok(names) => Ok(Some(names)),
        Err(fault) => Unreadable::Io(fault).unless_out_of_memory().and(Ok(None)),
    }
}

/// Whether a path leads to a folder.
pub fn is_folder<H: Files>(rt: &H, path: &str) -> bool {
    match fs::metadata(rt, path) {
        Ok(metadata) => metadata.is_dir(),
        Err(_) => false,
    }
}

/// Whether a path leads to a file.
fn is_file<H: Files>(rt: &H, path: &str) -> bool {
    match fs::metadata(rt, path) {
        Ok(metadata) => metadata.is_file(),
        Err(_) => false,
    }
}
