//! Where an archive begins, or goes on.
use crate::archive::Archive;
use crate::files::{ArchiveFiles, open_file};
use anyhow::{Error, Result, anyhow};
use named_files::ShownPath;
use std::alloc::Global;
use std::io;
use std::rt::HostRuntime;

/// An archive that was opened.
#[derive(Drop)]
pub struct Opened<'a> {
    pub archive: Archive<ArchiveFiles<'a>>,
    /// How many bytes of a torn line were cut off.
    pub cut: u64,
}

/// Opens the archive of this path, or makes it; lines go behind those that it has. A torn last line
/// is cut off. A file has at most `size` bytes, unless a single line has more. An error names the
/// option, the path and the reason.
pub fn open<'a>(
    files: &'a HostRuntime,
    alloc: Global,
    path: &'a str,
    size: Option<u64>,
) -> Result<Opened<'a>> {
    match open_file(files, path) {
        Ok(opened) => {
            let store = ArchiveFiles::new(files, alloc, path, opened.file);
            Ok(Opened {
                archive: Archive::new(alloc, store, opened.held, size),
                cut: opened.cut,
            })
        }
        Err(error) => Err(fault(path, &error)),
    }
}

/// What is said of a file that can't be opened, or written to.
pub fn fault(path: &str, error: &io::Error) -> Error {
    anyhow!("--audit: {}: {error}", ShownPath(path))
}
