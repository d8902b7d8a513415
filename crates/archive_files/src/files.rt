//! The files of an archive, on a disk.
use crate::line::Mark;
use crate::name::free_name;
use crate::store::Store;
use crate::tail::torn;
use std::alloc::Global;
use std::fs::{self, File, Metadata, TryLockError};
use std::io::{self, Error, ErrorKind, Write};
use std::os::unix::fs::{FileExt, FileTypeExt, MetadataExt, OpenOptionsExt};
use std::rt::HostRuntime;

/// The mode of a file that is made: its owner's alone.
const OWNERS: u32 = 0o600;

/// How many bytes of a file's end are looked at in one read.
const PIECE: usize = 4_096;

/// How the lines of an archive begin: that of a life, and that of an entry.
const LIFE: &[u8] = b"{\"life\":\"";

const ENTRY: &[u8] = b"{\"entry\":";

/// The bytes of each.
const HEAD: usize = 9;

/// The file at a path, which is written to at its end, and those that were full.
#[derive(Drop)]
pub struct ArchiveFiles<'a> {
    /// Not a handle of any type: the bound `Files` isn't known to hold in another thread.
    files: &'a HostRuntime,
    alloc: Global,
    path: &'a str,
    file: File,
}

/// A file that was opened.
#[derive(Drop)]
pub(crate) struct OpenFile {
    pub file: File,
    /// How many bytes it has, without a torn line.
    pub held: u64,
    /// How many bytes of a torn line were cut off.
    pub cut: u64,
}

impl<'a> ArchiveFiles<'a> {
    pub(crate) fn new(
        files: &'a HostRuntime,
        alloc: Global,
        path: &'a str,
        file: File,
    ) -> ArchiveFiles<'a> {
        ArchiveFiles {
            files,
            alloc,
            path,
            file,
        }
    }

    /// Gives the file its name of a full one, unless another one stands at the path by now, or
    /// none.
    fn set_aside(&self, first: Mark) -> io::Result<()> {
        let own = self.file.metadata()?;
        match fs::metadata(self.files, self.path) {
            Ok(found) if is_same(&found, &own) => {
                let name = free_name(self.files, self.alloc, self.path, first)?;
                fs::rename(self.files, self.path, name.as_str())
            }
            Ok(_) => Ok(()),
            Err(error) if error.kind() == ErrorKind::NotFound => Ok(()),
            Err(error) => Err(error),
        }
    }
}

/// Opens the file of the path to write to its end, or makes it, and keeps other programs out until
/// it is closed. A torn last line is cut off.
pub(crate) fn open_file(files: &HostRuntime, path: &str) -> io::Result<OpenFile> {
    refuse_pipe(files, path)?;
    let file = File::options()
        .create(true)
        .append(true)
        .mode(OWNERS)
        .open(files, path)?;
    if !file.metadata()?.is_file() {
        return Ok(OpenFile {
            file,
            held: 0,
            cut: 0,
        });
    }
    keep_others_out(&file)?;
    let length = file.metadata()?.len();
    let cut = cut_torn(files, path, &file, length)?;
    Ok(OpenFile {
        file,
        held: length.saturating_sub(cut),
        cut,
    })
}

/// An error where a pipe stands at the path: who opens it waits for whoever reads it.
fn refuse_pipe(files: &HostRuntime, path: &str) -> io::Result<()> {
    match fs::metadata(files, path) {
        Ok(found) if found.file_type().is_fifo() => {
            Err(Error::new(ErrorKind::InvalidInput, "it is a pipe"))
        }
        _ => Ok(()),
    }
}

/// An error where another program has this file.
fn keep_others_out(file: &File) -> io::Result<()> {
    match file.try_lock() {
        Ok(()) => Ok(()),
        Err(TryLockError::WouldBlock) => {
            let message = "another program writes to it";
            Err(Error::new(ErrorKind::WouldBlock, message))
        }
        Err(TryLockError::Error(error)) => Err(error),
    }
}

/// Cuts off what stands behind the last line feed: how many bytes.
fn cut_torn(files: &HostRuntime, path: &str, file: &File, length: u64) -> io::Result<u64> {
    if length == 0 {
        return Ok(0);
    }
    let reader = File::open(files, path)?;
    check_line(&reader, 0, length)?;
    let cut = torn_end(&reader, length)?;
    if cut > 0 {
        let whole = length.saturating_sub(cut);
        check_line(&reader, whole, length)?;
        file.set_len(whole)?;
    }
    Ok(cut)
}

/// How many bytes of a file of this length stand behind its last line feed.
fn torn_end<F: FileExt>(file: &F, length: u64) -> io::Result<u64> {
    let mut buffer = [0u8; PIECE];
    let mut end = length;
    for _ in 0..u64::MAX {
        let size = end.min(PIECE as u64);
        let start = end - size;
        let piece = &mut buffer[..size as usize];
        file.read_exact_at(piece, start)?;
        let behind = torn(piece);
        if behind < piece.len() || start == 0 {
            return Ok(length.saturating_sub(end).saturating_add(behind as u64));
        }
        end = start;
    }
    Err(Error::from(ErrorKind::Other))
}

/// An error where no line of an archive begins there, as far as a file of this length goes: what
/// isn't one is left as it is.
fn check_line<F: FileExt>(file: &F, place: u64, length: u64) -> io::Result<()> {
    let mut bytes = [0u8; HEAD];
    let size = length.saturating_sub(place).min(HEAD as u64);
    let begun = &mut bytes[..size as usize];
    file.read_exact_at(begun, place)?;
    if LIFE.starts_with(begun) || ENTRY.starts_with(begun) {
        return Ok(());
    }
    let message = "it is no archive";
    Err(Error::new(ErrorKind::InvalidData, message))
}

/// Whether it is the same file, whatever it is called.
fn is_same(one: &Metadata, other: &Metadata) -> bool {
    one.is_file() && one.dev() == other.dev() && one.ino() == other.ino()
}

impl Write for ArchiveFiles<'_> {
    fn write(&mut self, bytes: &[u8]) -> io::Result<usize> {
        self.file.write(bytes)
    }

    fn flush(&mut self) -> io::Result<()> {
        self.file.flush()
    }
}

impl Store for ArchiveFiles<'_> {
    fn turn(&mut self, first: Mark) -> io::Result<u64> {
        self.set_aside(first)?;
        self.reopen()
    }

    fn reopen(&mut self) -> io::Result<u64> {
        let own = self.file.metadata()?;
        // (this program has it already, and so couldn't open it)
        if let Ok(found) = fs::metadata(self.files, self.path) {
            if is_same(&found, &own) {
                return Ok(own.len());
            }
        }
        let opened = open_file(self.files, self.path)?;
        self.file = opened.file;
        Ok(opened.held)
    }

    fn take_back(&mut self, count: u64) -> io::Result<()> {
        let length = self.file.metadata()?.len();
        self.file.set_len(length.saturating_sub(count))
    }
}
