//! A file that holds a cookie.
ghost use Rattle.std.specs.Prelude.{◌≡◌, ◌++◌, false, All, IfOk, IfErr};
ghost use Rattle.named_files.specs.Secrets.{ends_line, IsOnlyLine, IsSecretFault};

use dist_types::{Cookie, TextFault};
use std::alloc::Global;
use std::fmt::{self, Display, Formatter, Write};
use std::fs::{self, Files};
use std::io;
use std::os::unix::fs::PermissionsExt;

/// The bits of a file's mode that let its group write it, or others do anything with it.
const OTHERS: u32 = 0o027;

/// Why a file with such a mode isn't taken for a secret.
pub const IS_OPEN: &str = "others can read this file, or its group write it (chmod 600)";

/// Why there is no cookie in a file.
#[derive(Drop)]
pub enum SecretFault {
    /// It can't be read.
    Unread(io::Error),
    /// Others can read it, or its group write it.
    Open,
    /// It has more than one line.
    Lines,
    /// Its line is no cookie.
    NoCookie(TextFault),
}

impl Display for SecretFault {
    fn fmt<W: Write>(&self, f: &mut Formatter<W>) -> fmt::Result {
        match self {
            SecretFault::Unread(error) => write!(f, "{error}"),
            SecretFault::Open => f.write_str(IS_OPEN),
            SecretFault::Lines => f.write_str("more than one line"),
            SecretFault::NoCookie(fault) => write!(f, "{fault}"),
        }
    }
}

impl From<io::Error> for SecretFault {
    fn from(error: io::Error) -> SecretFault {
        SecretFault::Unread(error)
    }
}

/// The cookie in a file, which is its only line. Others than the owner, and the group that may read
/// it, may have no right to the file.
pub fn read_cookie<R: Files>(rt: &R, alloc: Global, path: &str) -> Result<Cookie, SecretFault> {
    if is_open(rt, path)? {
        return Err(SecretFault::Open);
    }
    let text = fs::read(&(rt, alloc), path)?;
    cookie_in(alloc, text.as_slice())
}

/// Whether others can read a file, or its group write it.
pub fn is_open<R: Files>(rt: &R, path: &str) -> io::Result<bool> {
    Ok(fs::metadata(rt, path)?.permissions().mode() & OTHERS != 0)
}

/// The cookie that a text has as its only line.
pub fn cookie_in(alloc: Global, text: &[u8]) -> Result<Cookie, SecretFault>
    ensures ok { IfOk result (λ cookie. IsOnlyLine cookie text.now) }
    ensures refused { IfErr result (IsSecretFault text.now) }
{
    let (line, rest) = first_line(text);
    if !rest.iter().all(|byte| ends_line(*byte)) {
        return Err(SecretFault::Lines);
    }
    Cookie::parse(alloc, line).map_err(SecretFault::NoCookie)
}

/// The first line, and what stands behind it.
fn first_line(text: &[u8]) -> (&[u8], &[u8])
    ensures whole { result.0.now ++ result.1.now ≡ text.now }
    ensures line { All (λ b. ends_line b ≡ false) result.0.now }
{
    match text.iter().position(|byte| ends_line(*byte)) {
        Some(end) => text.split_at(end),
        None => (text, &[]),
    }
}

/// Whether a byte is a line feed, or a carriage return.
fn ends_line(byte: u8) -> bool
    ensures { result ≡ ends_line byte }
{
    byte == b'\n' || byte == b'\r'
}
