//! The standard streams of a program that was started without some of them.
use std::fs::{self, File, Files};

/// What stands in the place of each standard stream that is closed, so that no file and no socket
/// of the program's takes its number, and what is printed goes there. It is to live as long as the
/// program.
pub fn held_streams<R: Files<File = File>>(rt: &R) -> [Option<File>; 3] {
    [
        held(rt, "/proc/self/fd/0"),
        held(rt, "/proc/self/fd/1"),
        held(rt, "/proc/self/fd/2"),
    ]
}

/// A file of nothing where no stream has this place, which is the lowest one that is free.
fn held<R: Files<File = File>>(rt: &R, place: &str) -> Option<File> {
    match fs::exists(rt, place) {
        Ok(false) => File::options()
            .read(true)
            .write(true)
            .open(rt, "/dev/null")
            .ok(),
        _ => None,
    }
}
