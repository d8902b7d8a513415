//! The places where peers and clients connect.
use crate::queues::Queues;
use anyhow::{Error, Result, anyhow};
use dial_targets::PeerKind;
use node_net::{Arrivals, Host};
use pg_control::{Door, DoorPlace};
use pg_http::PageEntrance;
use pg_log::Log;
use pg_options::{Faces, SocketFile};
use pg_session::Rights;
use std::alloc::Global;
use std::fs::{File, Files};
use std::io;
use std::net::{Net, TcpListener, TcpStream};
use std::rt::HostRuntime;
use std::sync::Wait;
use std::time::Clock;

/// What an address is warned of that all networks can reach.
const OPEN: &str = "all networks can reach the node, and names and rows cross them in plain";

/// Those that there are. They are open until the end of the program.
#[derive(Drop)]
pub struct Places<'a> {
    pub arrivals: Option<Arrivals>,
    pub door: Option<Door<'a>>,
    /// Where all may be read, and nothing changed.
    pub read_door: Option<Door<'a>>,
    pub pages: Option<PageEntrance>,
}

impl Places<'_> {
    /// Nobody connects any more.
    pub fn shut<R: Wait>(&self, rt: &R) {
        if let Some(arrivals) = &self.arrivals {
            arrivals.shut(rt);
        }
        for door in [&self.door, &self.read_door] {
            if let Some(door) = door {
                door.shut();
            }
        }
        if let Some(pages) = &self.pages {
            pages.shut(rt);
        }
    }

    /// Takes the files of the control sockets away.
    pub fn remove<R: Files<File = File> + Clock>(&self, rt: &R, alloc: Global) {
        for door in [&self.door, &self.read_door] {
            if let Some(door) = door {
                door.remove(rt, alloc);
            }
        }
    }
}

/// Opens the address HOST:PORT where peers connect, the control sockets and the address of the
/// page, as far as there are any, and prints each.
pub fn open_places<'a, R: Host + Files<File = File>>(
    rt: &R,
    files: &HostRuntime,
    alloc: Global,
    listen: Option<&str>,
    faces: Faces<'a>,
    queues: &Queues,
    log: &Log,
) -> Result<Places<'a>> {
    let arrivals = match listen {
        Some(place) => Some(listen_at(rt, alloc, of_program(place), queues, log)?),
        None => None,
    };
    let mut places = Places {
        arrivals,
        door: open_door(rt, alloc, control_place(faces), queues)?,
        read_door: None,
        pages: None,
    };
    let opened = open_others(rt, files, alloc, faces, queues, &mut places);
    if let Err(error) = opened {
        places.remove(rt, alloc);
        return Err(error);
    }
    Ok(places)
}

/// Opens those beside the control socket, which stays where one of them can't be opened.
fn open_others<'a, R: Host + Files<File = File>>(
    rt: &R,
    files: &HostRuntime,
    alloc: Global,
    faces: Faces<'a>,
    queues: &Queues,
    places: &mut Places<'a>,
) -> Result<()> {
    places.read_door = open_door(rt, alloc, reading_place(faces), queues)?;
    places.pages = open_pages(rt, files, alloc, faces.http, queues)?;
    Ok(())
}

/// Where nodes of this program connect.
fn of_program(place: &str) -> Listening<'_> {
    Listening {
        option: "--listen",
        word: "listening",
        place,
        kind: PeerKind::Native,
    }
}

/// An address HOST:PORT where nodes connect.
#[derive(Clone, Copy)]
pub(crate) struct Listening<'a> {
    /// The option that names it.
    pub option: &'static str,
    /// The word behind which it is printed.
    pub word: &'static str,
    pub place: &'a str,
    pub kind: PeerKind,
}

/// Opens an address where nodes connect, and prints it.
pub(crate) fn listen_at<R>(
    rt: &R,
    alloc: Global,
    at: Listening<'_>,
    queues: &Queues,
    log: &Log,
) -> Result<Arrivals>
where
    R: Net<Listener = TcpListener, Stream = TcpStream> + Wait + Clock,
{
    let listener = TcpListener::bind(rt, at.place).map_err(|error| unbound(at, error))?;
    let address = listener.local_addr()?;
    let line = format!(in alloc; "{} {address}\n", at.word)?;
    queues.streams().output.put(rt, line.as_bytes())?;
    if address.ip().is_unspecified() {
        log.warn(rt, "open", OPEN);
    }
    Arrivals::new(listener, at.kind).map_err(|error| unbound(at, error))
}

fn unbound(at: Listening<'_>, error: io::Error) -> Error {
    anyhow!("{}: {:.60}: {error}", at.option, at.place)
}

/// Where all may be asked.
fn control_place(faces: Faces<'_>) -> Option<DoorPlace<'_>> {
    let SocketFile { path, mode } = faces.control?;
    Some(DoorPlace {
        path,
        mode,
        rights: Rights::All,
        seats_left: 0,
    })
}

/// Where all may be read. Who may do no more there doesn't keep out who may do more at the other
/// socket, if there is one.
fn reading_place(faces: Faces<'_>) -> Option<DoorPlace<'_>> {
    let SocketFile { path, mode } = faces.control_read?;
    let seats_left = match faces.control {
        Some(_) => 1,
        None => 0,
    };
    Some(DoorPlace {
        path,
        mode,
        rights: Rights::Reads,
        seats_left,
    })
}

fn open_door<'a, R: Wait + Files<File = File> + Net + Clock>(
    rt: &R,
    alloc: Global,
    place: Option<DoorPlace<'a>>,
    queues: &Queues,
) -> Result<Option<Door<'a>>> {
    let Some(place) = place else {
        return Ok(None);
    };
    let door = Door::open(rt, alloc, place)?;
    if let Err(error) = print_door(rt, alloc, place, queues) {
        door.remove(rt, alloc);
        return Err(error);
    }
    Ok(Some(door))
}

fn print_door<R: Wait + Clock>(
    rt: &R,
    alloc: Global,
    place: DoorPlace<'_>,
    queues: &Queues,
) -> Result<()> {
    let path = place.path;
    let name = match place.rights {
        Rights::All => "control",
        Rights::Reads => "control-read",
    };
    let line = format!(in alloc; "{name} {path}\n")?;
    queues.streams().output.put(rt, line.as_bytes())?;
    Ok(())
}

fn open_pages<R>(
    rt: &R,
    files: &HostRuntime,
    alloc: Global,
    place: Option<&str>,
    queues: &Queues,
) -> Result<Option<PageEntrance>>
where
    R: Net<Listener = TcpListener, Stream = TcpStream> + Wait + Clock,
{
    let Some(place) = place else {
        return Ok(None);
    };
    let pages = PageEntrance::open(rt, alloc, place, files)?;
    let address = pages.address()?;
    let line = format!(in alloc; "http {address}\n")?;
    queues.streams().output.put(rt, line.as_bytes())?;
    Ok(Some(pages))
}
