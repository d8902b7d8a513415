//! How much memory the program has, as the system tells it.
use std::fs::{File, Files};
use std::os::unix::fs::FileExt;

/// What the system tells of the program's memory, in pages: its size, and what of it is resident.
const PATH: &str = "/proc/self/statm";

/// The bytes of a page of x86-64.
const PAGE: u64 = 4_096;

/// Where the system tells it, opened at the start: later there may be no descriptor for it.
#[derive(Drop)]
pub struct Memory {
    file: Option<File>,
}

impl Memory {
    pub fn open<R: Files<File = File>>(rt: &R) -> Memory {
        Memory {
            file: File::open(rt, PATH).ok(),
        }
    }

    /// How many bytes are resident, where the system tells it.
    pub fn bytes(&self) -> Option<u64> {
        let mut text = [0; 128];
        let length = self.file.as_ref()?.read_at(&mut text, 0).ok()?;
        let words = str::from_utf8(text.get(..length)?).ok()?;
        let pages: u64 = words.split(' ').nth(1)?.parse().ok()?;
        pages.checked_mul(PAGE)
    }
}
