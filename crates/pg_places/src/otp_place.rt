//! Where stock nodes of Erlang/OTP connect, and how the node is registered with EPMD so that they
//! find it.
use crate::places::{Listening, listen_at};
use crate::queues::Queues;
use anyhow::{Result, bail};
use dial_targets::PeerKind;
use dist_types::NodeName;
use epmd::{Alive, AskFault, EpmdFault, NodeKind, register};
use node_net::{Arrivals, Host};
use pg_log::{Level, Log, number, text};
use pg_options::OtpOptions;
use std::alloc::Global;
use std::io::{self, ErrorKind, Read};
use std::net::{Ipv4Addr, Net, Shutdown, SocketAddr, SocketAddrV4, TcpListener, TcpStream};
use std::sync::{Arc, Condvar, CondvarTimeouts, Mutex, Wait};
use std::thread::{Scope, Threads};
use std::time::{Clock, Duration};

/// The milliseconds before EPMD is tried again, as a stock node does it.
const REST: u64 = 2_000;

/// The milliseconds for a connect to EPMD, which is on this machine: nothing can end it sooner.
const CONNECT: u64 = 500;

/// The milliseconds that EPMD has for its answer.
const ANSWER: u64 = 7_000;

/// Why EPMD registers no node that asks properly.
const TAKEN: &str = "EPMD doesn't take the name: another program may have it";

/// Where stock nodes connect. It is open until the end of the program.
#[derive(Drop)]
pub struct OtpPlace {
    pub arrivals: Arrivals,
    pub registration: Option<Registration>,
}

impl OtpPlace {
    /// Nobody connects any more, and the node isn't registered any more.
    pub fn shut<R: Wait>(&self, rt: &R) {
        self.arrivals.shut(rt);
        if let Some(registration) = &self.registration {
            registration.end(rt);
        }
    }
}

/// Opens the address where stock nodes connect, if there is one, and prints it.
pub fn open_otp<R: Host>(
    rt: &R,
    alloc: Global,
    options: OtpOptions<'_>,
    name: &NodeName,
    queues: &Queues,
    log: &Log,
) -> Result<Option<OtpPlace>> {
    let Some(place) = options.listen else {
        return Ok(None);
    };
    let at = Listening {
        option: "--otp-listen",
        word: "otp-listening",
        place,
        kind: options.kind,
    };
    let arrivals = listen_at(rt, alloc, at, queues, log)?;
    let port = arrivals.address()?.port();
    let registration = match options.epmd {
        Some(epmd) => Some(Registration::new(alloc, name, options.kind, port, epmd)?),
        None => None,
    };
    Ok(Some(OtpPlace {
        arrivals,
        registration,
    }))
}

/// What lies behind the lock.
#[derive(Drop)]
struct State {
    /// That to EPMD, by which the node is registered.
    stream: Option<Arc<TcpStream>>,
    has_ended: bool,
}

/// How the node is registered with EPMD on this machine.
#[derive(Drop)]
pub struct Registration {
    alloc: Global,
    /// The node's name up to the `@`.
    name: String,
    kind: NodeKind,
    /// Where it takes links.
    port: u16,
    /// That of EPMD.
    epmd: u16,
    state: Mutex<State>,
    ended: Condvar,
}

impl Registration {
    fn new(
        alloc: Global,
        name: &NodeName,
        kind: PeerKind,
        port: u16,
        epmd: u16,
    ) -> Result<Registration> {
        let Some((front, _)) = name.as_str().split_once('@') else {
            bail!("--epmd: the node's name has no host");
        };
        Ok(Registration {
            alloc,
            name: String::from_str(alloc, front)?,
            kind: match kind {
                PeerKind::Visible => NodeKind::Normal,
                _ => NodeKind::Hidden,
            },
            port,
            epmd,
            state: Mutex::new(State {
                stream: None,
                has_ended: false,
            }),
            ended: Condvar::new(),
        })
    }

    /// The node is registered no more, and `keep` ends.
    fn end<R: Wait>(&self, rt: &R) {
        let mut state = self.state.lock(rt);
        state.has_ended = true;
        if let Some(stream) = &state.stream {
            // A socket that can't be shut down has ended already.
            stream.shutdown(Shutdown::Both).ok();
        }
        drop(state);
        self.ended.notify_all();
    }

    fn has_ended<R: Wait>(&self, rt: &R) -> bool {
        self.state.lock(rt).has_ended
    }

    /// Keeps the node registered until the end. Where EPMD isn't there, or has gone, it is tried
    /// again; that is logged once until it is there again.
    fn keep<R: Host>(&self, rt: &R, log: &Log) {
        let mut is_told = false;
        for _ in rt.forever() {
            match self.register_once(rt) {
                Ok(stream) => {
                    is_told = false;
                    self.log_registered(rt, log);
                    self.hold(rt, &stream);
                }
                Err(fault) => {
                    if !is_told && !self.has_ended(rt) {
                        self.log_fault(rt, log, &fault);
                    }
                    is_told = true;
                }
            }
            // EPMD sees the connection end before the next one comes.
            self.state.lock(rt).stream = None;
            if self.rest(rt) {
                return;
            }
        }
        unreachable!()
    }

    /// Rests before EPMD is tried again: whether the end has come.
    fn rest<R: Wait + Clock>(&self, rt: &R) -> bool {
        let time = Duration::from_millis(REST);
        let state = self.state.lock(rt);
        let (state, _) = self
            .ended
            .wait_timeout_while(rt, state, time, |state| !state.has_ended);
        state.has_ended
    }

    fn register_once<R>(&self, rt: &R) -> Result<Arc<TcpStream>, AskFault>
    where
        R: Net<Listener = TcpListener, Stream = TcpStream> + Wait + Clock,
    {
        let stream = self.connect(rt)?;
        let Ok(stream) = Arc::new(self.alloc, stream) else {
            return Err(AskFault::Stream(ErrorKind::OutOfMemory));
        };
        self.enter(rt, &stream)?;
        let alive = Alive {
            port: self.port,
            kind: self.kind,
            name: self.name.as_bytes(),
        };
        let time = Duration::from_millis(ANSWER);
        register(rt, self.alloc, &stream, &alive, time)?;
        stream.set_read_timeout(None)?;
        Ok(stream)
    }

    /// Enters the connection before anything is awaited of it, so that the end shuts it. An error
    /// after the end.
    fn enter<R: Wait>(&self, rt: &R, stream: &Arc<TcpStream>) -> Result<(), AskFault> {
        let Ok(copy) = Arc::try_clone(stream) else {
            return Err(AskFault::Stream(ErrorKind::OutOfMemory));
        };
        let mut state = self.state.lock(rt);
        if state.has_ended {
            return Err(AskFault::Stream(ErrorKind::Interrupted));
        }
        state.stream = Some(copy);
        Ok(())
    }

    /// Connects to EPMD on this machine.
    fn connect<R>(&self, rt: &R) -> io::Result<TcpStream>
    where
        R: Net<Listener = TcpListener, Stream = TcpStream>,
    {
        let address = SocketAddr::V4(SocketAddrV4::new(Ipv4Addr::LOCALHOST, self.epmd));
        TcpStream::connect_timeout(rt, &address, Duration::from_millis(CONNECT))
    }

    /// Waits until the connection by which the node is registered has ended.
    fn hold<R: Wait>(&self, rt: &R, stream: &TcpStream) {
        let mut stream = stream;
        let mut byte = [0u8; 1];
        for _ in rt.forever() {
            if self.has_ended(rt) {
                return;
            }
            match stream.read(&mut byte) {
                Ok(0) => return,
                Ok(_) => {}
                Err(error) if error.kind() == ErrorKind::Interrupted => {}
                Err(_) => return,
            }
        }
        unreachable!()
    }

    fn log_registered<R: Wait + Clock>(&self, rt: &R, log: &Log) {
        let fields = [
            text("name", self.name.as_str()),
            number("port", u64::from(self.port)),
            number("epmd", u64::from(self.epmd)),
        ];
        log.tell(rt, Level::Info, "registered", &fields);
    }

    fn log_fault<R: Wait + Clock>(&self, rt: &R, log: &Log, fault: &AskFault) {
        if matches!(fault, AskFault::Answer(EpmdFault::Refused)) {
            self.log_reason(rt, log, TAKEN);
        } else if let Ok(reason) = format!(in self.alloc; "{fault}") {
            self.log_reason(rt, log, reason.as_str());
        }
    }

    fn log_reason<R: Wait + Clock>(&self, rt: &R, log: &Log, reason: &str) {
        let fields = [number("epmd", u64::from(self.epmd)), text("reason", reason)];
        log.tell(rt, Level::Warn, "not_registered", &fields);
    }
}

/// Starts the thread that keeps the node registered, where it is to be: whether it could be made.
pub fn start_registering<'s, E: 's, R: Host + 's>(
    scope: &'s Scope<'s, E>,
    rt: &'s R,
    place: Option<&'s OtpPlace>,
    log: &'s Log,
) -> bool {
    match place {
        Some(
            OtpPlace {
                registration: Some(registration),
                ..
            },
        ) => scope.spawn(move || registration.keep(rt, log)).is_ok(),
        _ => true,
    }
}
