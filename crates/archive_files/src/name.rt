//! What a full file is called.
use crate::line::Mark;
use std::alloc::Global;
use std::fs;
use std::io::{self, ErrorKind};
use std::rt::HostRuntime;

/// How many names are tried.
const MOST_NAMES: u32 = 10_000;

/// A name for the full file of that path which nothing has yet: PATH.CREATION.NUMBER, else that
/// with .2, .3 and so on behind it.
pub(crate) fn free_name(
    files: &HostRuntime,
    alloc: Global,
    path: &str,
    first: Mark,
) -> io::Result<String> {
    let Mark { creation, number } = first;
    let name = format!(in alloc; "{path}.{creation}.{number}")?;
    if is_free(files, name.as_str())? {
        return Ok(name);
    }
    for copy in 2..MOST_NAMES {
        let name = format!(in alloc; "{path}.{creation}.{number}.{copy}")?;
        if is_free(files, name.as_str())? {
            return Ok(name);
        }
    }
    Err(io::Error::from(ErrorKind::AlreadyExists))
}

/// Whether nothing has the name. An error where that can't be told, as of a name that is too long.
fn is_free(files: &HostRuntime, name: &str) -> io::Result<bool> {
    match fs::symlink_metadata(files, name) {
        Ok(_) => Ok(false),
        Err(error) if error.kind() == ErrorKind::NotFound => Ok(true),
        Err(error) => Err(error),
    }
}
