//! The place of the control socket: a path that one program at a time serves.
use anyhow::{Error, Result, anyhow, bail};
use named_files::ShownPath;
use pg_session::Rights;
use std::alloc::Global;
use std::fmt::Display;
use std::fs::{self, File, Files, Metadata, OpenFile, Permissions, TryLockError};
use std::io::{self, ErrorKind};
use std::net::{Net, Shutdown};
use std::os::fd::OwnedFd;
use std::os::unix::fs::{FileTypeExt, MetadataExt, OpenOptionsExt, PermissionsExt};
use std::os::unix::net::{UnixListener, UnixStream};
use std::thread;
use std::time::{Clock, Duration};

/// The mode of the file that is locked, which is the owner's alone.
const OWNERS: u32 = 0o600;

/// How often the lock of a path is tried, and the milliseconds of rest behind each time.
const TRIES: u32 = 100;

const REST: u64 = 20;

/// The most bytes of a path: those of a socket, less `.new`, which stands behind it at first.
const LONGEST: usize = 103;

/// Where a control socket is to be, with which mode, what may be asked there, and how many free
/// seats its connections leave to others.
#[derive(Clone, Copy, Drop)]
pub struct DoorPlace<'a> {
    pub path: &'a str,
    pub mode: u32,
    pub rights: Rights,
    pub seats_left: usize,
}

impl DoorPlace<'_> {
    /// The option that says it.
    fn option(&self) -> &'static str {
        match self.rights {
            Rights::All => "--control",
            Rights::Reads => "--control-read",
        }
    }

    fn fault(&self, reason: impl Display + Drop) -> Error {
        let (option, path) = (self.option(), ShownPath(self.path));
        anyhow!("{option}: {path}: {reason}")
    }
}

/// A control socket at its path.
#[derive(Drop)]
pub struct Door<'a> {
    pub listener: UnixListener,
    /// The same socket, as what can be shut. It is made at once, since later there may be no
    /// descriptor for it.
    handle: UnixStream,
    path: &'a str,
    file: FileNumber,
    /// What may be asked here.
    pub rights: Rights,
    /// How many free seats its connections leave to others.
    pub seats_left: usize,
}

/// Which file it is, whatever it is called.
#[derive(Clone, Copy, Debug, PartialEq, Eq)]
struct FileNumber {
    device: u64,
    number: u64,
}

impl FileNumber {
    fn of(found: &Metadata) -> FileNumber {
        FileNumber {
            device: found.dev(),
            number: found.ino(),
        }
    }
}

impl<'a> Door<'a> {
    /// Makes the socket of this path, in the place of one that no program answers at. Programs that
    /// begin there at the same moment do so one after another, and all but the first find that
    /// another one answers.
    pub fn open<R: Files<File = File> + Net + Clock>(
        rt: &R,
        alloc: Global,
        place: DoorPlace<'a>,
    ) -> Result<Door<'a>> {
        if place.path.len() > LONGEST {
            return Err(place.fault("a path of more than 103 bytes"));
        }
        let turn = take_turn(rt, alloc, place.path).map_err(|reason| place.fault(reason))?;
        let opened = open_in_turn(rt, alloc, place);
        turn.end(rt);
        opened
    }

    /// Wakes who waits for a connection, now and later.
    pub fn shut(&self) {
        // One that can't be shut has failed already.
        self.handle.shutdown(Shutdown::Both).ok();
    }

    /// Takes the socket's file away, unless another one stands at its path by now.
    pub fn remove<R: Files<File = File> + Clock>(&self, rt: &R, alloc: Global) {
        let turn = take_turn(rt, alloc, self.path).ok();
        if file_at(rt, self.path) == Some(self.file) {
            fs::remove_file(rt, self.path).ok();
        }
        if let Some(turn) = turn {
            turn.end(rt);
        }
    }
}

/// Makes the socket of this path while no other program does.
fn open_in_turn<'a, R: Files + Net>(
    rt: &R,
    alloc: Global,
    place: DoorPlace<'a>,
) -> Result<Door<'a>> {
    let path = place.path;
    if let Ok(found) = fs::symlink_metadata(rt, path) {
        if !found.file_type().is_socket() {
            return Err(place.fault("there is a file that is no socket"));
        }
        match UnixStream::connect(rt, path) {
            Ok(_) => return Err(place.fault("another program answers there")),
            // Nobody answers at a socket that refuses; of others nothing is known.
            Err(error) if error.kind() == ErrorKind::ConnectionRefused => {}
            Err(error) => return Err(place.fault(error)),
        }
    }
    let first = format!(in alloc; "{path}.new")?;
    let opened = bind(rt, first.as_str(), place);
    opened.map_err(|error| place.fault(error))
}

/// Makes the socket under a first name. It gets its path once it has its mode.
fn bind<'a, R: Files + Net>(rt: &R, first: &str, place: DoorPlace<'a>) -> io::Result<Door<'a>> {
    // One of a program that ended in here.
    remove_socket(rt, first);
    let bound = bind_as(rt, first, place);
    if bound.is_err() {
        remove_socket(rt, first);
    }
    bound
}

fn bind_as<'a, R: Files + Net>(rt: &R, first: &str, place: DoorPlace<'a>) -> io::Result<Door<'a>> {
    let listener = UnixListener::bind(rt, first)?;
    fs::set_permissions(rt, first, Permissions::from_mode(place.mode))?;
    turn_away(&listener)?;
    let handle = UnixStream::from(OwnedFd::from(listener.try_clone()?));
    let file = FileNumber::of(&fs::symlink_metadata(rt, first)?);
    fs::rename(rt, first, place.path)?;
    Ok(Door {
        listener,
        handle,
        path: place.path,
        file,
        rights: place.rights,
        seats_left: place.seats_left,
    })
}

/// Hangs up on who has come while the socket had no mode yet.
fn turn_away(listener: &UnixListener) -> io::Result<()> {
    listener.set_nonblocking(true)?;
    for _ in 0..u64::MAX {
        match listener.accept() {
            Ok(_) => {}
            Err(error) if error.kind() == ErrorKind::WouldBlock => break,
            Err(error) => return Err(error),
        }
    }
    listener.set_nonblocking(false)
}

fn remove_socket<R: Files>(rt: &R, path: &str) {
    if let Ok(found) = fs::symlink_metadata(rt, path) {
        if found.file_type().is_socket() {
            fs::remove_file(rt, path).ok();
        }
    }
}

fn file_at<R: Files>(rt: &R, path: &str) -> Option<FileNumber> {
    let found = fs::symlink_metadata(rt, path).ok()?;
    Some(FileNumber::of(&found))
}

/// The right to change what stands at a path: a locked file beside it, whose lock the system takes
/// from a program that ends.
#[derive(Drop)]
struct Turn {
    name: String,
    file: File,
}

impl Turn {
    fn end<R: Files>(self, rt: &R) {
        let Turn { name, file } = self;
        // It is locked still, so nobody else has the right to it.
        fs::remove_file(rt, name.as_str()).ok();
        drop(file);
    }
}

/// Waits for a while until no other program has the right.
fn take_turn<R: Files<File = File> + Clock>(rt: &R, alloc: Global, path: &str) -> Result<Turn> {
    let name = format!(in alloc; "{path}.lock")?;
    for _ in 0..TRIES {
        match try_lock(rt, name.as_str()) {
            Ok(Some(file)) => return Ok(Turn { name, file }),
            Ok(None) => thread::sleep(rt, Duration::from_millis(REST)),
            Err(error) => bail!("its lock: {error}"),
        }
    }
    bail!("another program begins there")
}

/// The file of this name, if it could be locked, and still stands there: whoever had it takes it
/// away.
fn try_lock<R: Files<File = File>>(rt: &R, name: &str) -> io::Result<Option<File>> {
    let file = open_to_lock(rt, name)?;
    match file.try_lock() {
        Ok(()) => {}
        Err(TryLockError::WouldBlock) => return Ok(None),
        Err(TryLockError::Error(error)) => return Err(error),
    }
    if file_at(rt, name) == Some(FileNumber::of(&file.metadata()?)) {
        return Ok(Some(file));
    }
    Ok(None)
}

fn open_to_lock<R: Files<File = File>>(rt: &R, name: &str) -> io::Result<File> {
    let mut options = File::options();
    options.write(true).create(true).mode(OWNERS);
    options.open(rt, name)
}
