//! The whole run of the program.
use anyhow::{Result, bail};
use command_line::VERSION;
use dial_targets::{Limits, Targets};
use dist_types::{NodeName, TryClone};
use link_notes::Notes;
use node_net::{Arrivals, Host, Lane, start_taking};
use pg_asked::Asked;
use pg_closer::{ArchivePlace, Closer, Recorder};
use pg_control::{Operator, start_control, start_operator};
use pg_http::start_pages;
use pg_hub::{Hub, HubSettings, Keeping, Memory, Readers};
use pg_lives::{LifeMaker, Site, finish, keep_on, live_on};
use pg_log::{Field, Level, Log, number, text};
use pg_options::{Faces, LogOptions, Options, OtpOptions};
use pg_places::{OtpPlace, Places, Queues, UntakenPeers, open_otp, open_places, start_registering};
use pg_session::Seen;
use pg_settings::given;
use pg_streams::Streams;
use rand_chacha::ChaCha20Rng;
use std::alloc::Global;
use std::fs::{File, Files};
use std::rt::HostRuntime;
use std::sync::{Arc, Wait};
use std::thread;
use std::thread::{Scope, Threads};
use std::time::{Clock, Instant};

/// What the program serves, and by what.
#[derive(Clone, Copy, Drop)]
struct Program<'a, 'f> {
    hub: &'a Hub,
    limits: Limits,
    places: &'a Places<'a>,
    otp_place: Option<&'a OtpPlace>,
    closer: &'a Closer<'f>,
    streams: Streams<'a>,
}

impl<'a> Program<'a, '_> {
    /// Where its links are made.
    fn site(&self) -> Site<'a> {
        Site {
            hub: self.hub,
            limits: self.limits,
            arrivals: self.places.arrivals.as_ref(),
            otp_arrivals: self.otp_place.map(|place| &place.arrivals),
        }
    }

    /// Ends all that was started, behind the last life.
    fn end<R: Host>(&self, rt: &R) {
        self.hub.quit(rt);
        self.hub.log.tell(rt, Level::Info, "ending", &[]);
        self.streams.end(rt);
        self.closer.end(rt);
        self.places.shut(rt);
        if let Some(place) = self.otp_place {
            place.shut(rt);
        }
    }
}

/// Where it can be reached, within which limits, and its standard streams.
#[derive(Clone, Copy, Drop)]
struct Outside<'a> {
    listen: Option<&'a str>,
    otp: OtpOptions<'a>,
    faces: Faces<'a>,
    limits: Limits,
    queues: &'a Queues,
}

impl<'a> Outside<'a> {
    fn of(options: &Options<'a>, queues: &'a Queues) -> Outside<'a> {
        Outside {
            listen: options.listen,
            otp: options.otp,
            faces: options.faces,
            limits: options.limits,
            queues,
        }
    }
}

/// Runs a node until the end of standard input, or until `quit`.
pub fn run<R: Host + Files<File = File>>(
    rt: &R,
    files: &HostRuntime,
    alloc: Global,
    options: Options<'_>,
    words: ChaCha20Rng,
    queues: &Queues,
) -> Result<()> {
    let outside = Outside::of(&options, queues);
    let Options {
        opening,
        targets,
        allowed,
        cookies,
        clients,
        entries,
        audit,
        audit_size,
        log,
        ..
    } = options;
    let (last_entry, in_parts) = (opening.entries, opening.links > 1);
    let mut maker = LifeMaker::new(opening, words);
    let told = given(alloc, allowed, cookies)?;
    let log = open_log(alloc, log, queues)?;
    let place = archive_place(audit, audit_size);
    let keeping = Keeping::new(entries, audit.is_some());
    let closer = open_closer(rt, files, alloc, place, entries, &maker, &log)?;
    let hub_settings = hub_settings(files, alloc, clients, keeping, last_entry, targets, log)?;
    let (hub, lanes) = maker.begin(rt, alloc, hub_settings, told)?;
    hub.notes.edges.set_parts(in_parts);
    live_outside(rt, files, outside, hub, &closer, &mut maker, lanes)
}

/// Where it can be reached, opened.
#[derive(Drop)]
struct Opened<'a> {
    otp_place: Option<OtpPlace>,
    places: Places<'a>,
}

/// Lives where it can be reached, until the end, and closes the last life.
fn live_outside<R: Host + Files<File = File>>(
    rt: &R,
    files: &HostRuntime,
    outside: Outside<'_>,
    hub: Hub,
    closer: &Closer<'_>,
    maker: &mut LifeMaker,
    lanes: Vec<Lane>,
) -> Result<()> {
    let alloc = hub.alloc;
    let opened = match open_outside(rt, files, outside, &hub) {
        Ok(opened) => opened,
        Err(reason) => return finish(rt, hub, closer, Err(reason)),
    };
    log_begin(rt, &hub);
    let program = Program {
        hub: &hub,
        limits: outside.limits,
        places: &opened.places,
        otp_place: opened.otp_place.as_ref(),
        closer,
        streams: outside.queues.streams(),
    };
    let ended = serve(rt, program, maker, lanes);
    let finished = finish(rt, hub, closer, ended);
    // Behind the archive: who waits for a control socket to go finds that written.
    opened.places.remove(rt, alloc);
    finished
}

fn open_outside<'a, R: Host + Files<File = File>>(
    rt: &R,
    files: &HostRuntime,
    outside: Outside<'a>,
    hub: &Hub,
) -> Result<Opened<'a>> {
    let Outside {
        listen,
        otp,
        faces,
        queues,
        ..
    } = outside;
    let (alloc, log) = (hub.alloc, &hub.log);
    Ok(Opened {
        otp_place: open_otp(rt, alloc, otp, &name_of(rt, hub)?, queues, log)?,
        places: open_places(rt, files, alloc, listen, faces, queues, log)?,
    })
}

fn name_of<R: Wait>(rt: &R, hub: &Hub) -> Result<NodeName> {
    let shared = hub.node.shared.lock(rt);
    let name = shared.core().name().try_clone(hub.alloc);
    drop(shared);
    Ok(name?)
}

/// What the hub is made of, with a seat for each client and one for standard input.
fn hub_settings(
    files: &HostRuntime,
    alloc: Global,
    clients: u32,
    keeping: Keeping,
    last_entry: u32,
    targets: Arc<Targets>,
    log: Arc<Log>,
) -> Result<HubSettings> {
    let seats = clients.saturating_add(1);
    let readers = Readers::new(alloc, seats)?;
    let notes = Notes::new(alloc)?;
    Ok(HubSettings {
        seats,
        last_entry,
        keeping,
        readers,
        notes,
        version: VERSION,
        log,
        targets,
        memory: Memory::open(files),
        begun: Instant::now(files).ok(),
    })
}

fn open_log(alloc: Global, options: LogOptions, queues: &Queues) -> Result<Arc<Log>> {
    let LogOptions { format, level } = options;
    let log = Log::new(alloc, format, level, Arc::try_clone(&queues.warnings)?)?;
    Ok(Arc::new(alloc, log)?)
}

fn archive_place(path: Option<&str>, size: Option<u64>) -> Option<ArchivePlace<'_>> {
    match path {
        Some(path) => Some(ArchivePlace { path, size }),
        None => None,
    }
}

/// What closes lives and writes the archive at this place, which has the line of the first life.
fn open_closer<'a, R: Wait + Clock>(
    rt: &R,
    files: &'a HostRuntime,
    alloc: Global,
    place: Option<ArchivePlace<'a>>,
    entries: u32,
    maker: &LifeMaker,
    log: &Log,
) -> Result<Closer<'a>> {
    let life = maker.life(alloc)?;
    let archive = match place {
        Some(place) => {
            let mut recorder = Recorder::open(rt, files, alloc, place, log)?;
            recorder.begin(&life)?;
            Some(recorder)
        }
        None => None,
    };
    Ok(Closer::new(rt, alloc, archive, life.creation, entries))
}

/// Logs which node has begun.
fn log_begin<R: Wait + Clock>(rt: &R, hub: &Hub) {
    let shared = hub.node.shared.lock(rt);
    let core = shared.core();
    let fields = begun_fields(core.name().as_str(), core.creation());
    hub.log.tell(rt, Level::Info, "begun", &fields);
}

fn begun_fields<'a>(name: &'a str, creation: u32) -> [Field<'a>; 3] {
    [
        text("name", name),
        number("creation", u64::from(creation)),
        text("version", VERSION),
    ]
}

/// Serves all connections and links until the end. The lanes come back.
fn serve<R: Host>(
    rt: &R,
    program: Program<'_, '_>,
    maker: &mut LifeMaker,
    lanes: Vec<Lane>,
) -> Result<Vec<Lane>> {
    let Program {
        hub,
        places,
        closer,
        streams,
        ..
    } = program;
    let site = program.site();
    let Some((seat, seen)) = hub.enter(rt, 0) else {
        bail!("out of memory");
    };
    let operator = Operator::new(hub, seat, streams, places.door.is_none());
    let untaken = UntakenPeers { rt, log: &hub.log };
    thread::scope(thread::scope_env(), rt, |scope| {
        let are_made = start_all(scope, rt, program, &operator, seen)
            && start_arrivals(scope, rt, site.arrivals, &untaken)
            && start_arrivals(scope, rt, site.otp_arrivals, &untaken);
        let ended = live_on(rt, site, maker, closer, lanes, are_made);
        program.end(rt);
        ended
    })
}

/// Starts the threads that last as long as the program: whether all could be made.
fn start_all<'s, E: 's, R: Host + 's>(
    scope: &'s Scope<'s, E>,
    rt: &'s R,
    program: Program<'s, '_>,
    operator: &'s Operator<'_, Hub>,
    seen: Seen,
) -> bool {
    let Program {
        hub,
        places,
        otp_place,
        closer,
        ..
    } = program;
    let log: &Log = &hub.log;
    let are_logged = scope.spawn(move || hub.log_all(rt)).is_ok();
    let are_served = start_operator(scope, rt, operator, seen);
    let are_let_in = start_control(scope, rt, hub, places.door.as_ref())
        && start_control(scope, rt, hub, places.read_door.as_ref())
        && start_pages(scope, rt, hub, log, places.pages.as_ref());
    let are_kept = start_keeping(scope, rt, hub, closer);
    let is_found = start_registering(scope, rt, otp_place, log);
    are_logged && are_served && are_let_in && are_kept && is_found
}

/// Starts the threads that take out of the node what it keeps no more, and that write it and close
/// lives: whether both could be made.
fn start_keeping<'s, E: 's, R: Threads + Wait + Clock + Sync + 's>(
    scope: &'s Scope<'s, E>,
    rt: &'s R,
    hub: &'s Hub,
    closer: &'s Closer<'_>,
) -> bool {
    let is_taken = scope.spawn(move || keep_on(rt, hub, closer)).is_ok();
    scope.spawn(move || closer.work(rt, hub)).is_ok() && is_taken
}

/// Starts the thread that takes connections of peers, where there is an address for them: whether
/// it could be made.
fn start_arrivals<'s, E: 's, R: Threads + Wait + Clock + Sync + 's>(
    scope: &'s Scope<'s, E>,
    rt: &'s R,
    arrivals: Option<&'s Arrivals>,
    untaken: &'s UntakenPeers<'_, R>,
) -> bool {
    match arrivals {
        Some(arrivals) => start_taking(scope, rt, arrivals, untaken),
        None => true,
    }
}
