//! From one life of the node to the next.
use crate::life::LANES;
use anyhow::{Result, bail};
use cookie_digest::ChallengeSource;
use dist_types::{Cookie, OutOfMemory, TryClone};
use node_core::NodeCore;
use node_net::Lane;
use node_threads::{Node, Pass};
use pg_archive::Life;
use pg_closer::EndedLife;
use pg_hub::{House, Hub, HubSettings, is_nearly_full};
use pg_session::{Caller, Session};
use pg_settings::{held, say_all};
use policy_audit::{Event, Opening};
use rand_chacha::ChaCha20Rng;
use std::alloc::Global;
use std::mem::{replace, swap};
use std::sync::{Mutex, Wait};
use std::time::Clock;
use std::vec;

/// The passes of a node with this many seats of connections: that of the keeper, one for each seat,
/// and two for each lane.
fn passes_for(seats: u32) -> u32 {
    seats.saturating_add(1 + 2 * LANES as u32)
}

/// Makes the lanes of each life. No two of them draw the same challenges.
struct LaneMaker {
    words: ChaCha20Rng,
    made: u64,
}

impl Drop for LaneMaker {
    fn drop(self) {
        let LaneMaker { words: _, made: _ } = self;
    }
}

impl LaneMaker {
    fn new(words: ChaCha20Rng) -> LaneMaker {
        LaneMaker { words, made: 0 }
    }

    fn make(&mut self, reader: Pass, writer: Pass) -> Result<Lane> {
        // The first stream is that of the words that were drawn before.
        self.made = self.made.saturating_add(1);
        let mut words = self.words.clone()?;
        words.set_stream(self.made);
        match Lane::new(reader, writer, ChallengeSource::new(words)) {
            Ok(lane) => Ok(lane),
            Err(_) => bail!("a pass of a new node has made calls"),
        }
    }

    fn make_next(&mut self, passes: &mut vec::IntoIter<Pass>) -> Result<Lane> {
        let reader = next_pass(passes)?;
        self.make(reader, next_pass(passes)?)
    }

    fn make_all(&mut self, alloc: Global, passes: &mut vec::IntoIter<Pass>) -> Result<Vec<Lane>> {
        let mut lanes = Vec::new(alloc);
        for _ in 0..LANES {
            lanes.push(self.make_next(passes)?)?;
        }
        Ok(lanes)
    }
}

fn next_pass(passes: &mut vec::IntoIter<Pass>) -> Result<Pass> {
    match passes.next() {
        Some(pass) => Ok(pass),
        None => bail!("a new node has too few passes"),
    }
}

fn next_caller(passes: &mut vec::IntoIter<Pass>) -> Result<Caller> {
    match Caller::new(next_pass(passes)?) {
        Ok(caller) => Ok(caller),
        Err(_) => bail!("a pass of a new node has made calls"),
    }
}

/// Makes one life after another.
pub struct LifeMaker {
    /// That of the last life.
    opening: Opening,
    lanes: LaneMaker,
}

impl Drop for LifeMaker {
    fn drop(self) {
        let LifeMaker {
            opening: _,
            lanes: _,
        } = self;
    }
}

impl LifeMaker {
    /// The first life begins so. The challenges of all lives are drawn from these words.
    pub fn new(opening: Opening, words: ChaCha20Rng) -> LifeMaker {
        LifeMaker {
            opening,
            lanes: LaneMaker::new(words),
        }
    }

    /// The first life, whose hub is made with these settings, and whose node is told these events
    /// first.
    pub fn begin<R: Wait + Clock>(
        &mut self,
        rt: &R,
        alloc: Global,
        settings: HubSettings,
        told: Vec<Event>,
    ) -> Result<(Hub, Vec<Lane>)> {
        let (node, house, lanes) = self.make(rt, alloc, settings.seats, told)?;
        check_room(rt, settings.last_entry, &node)?;
        Ok((Hub::new(alloc, node, house, settings), lanes))
    }

    /// A node, and who has which of its passes.
    fn make<R: Wait>(
        &mut self,
        rt: &R,
        alloc: Global,
        seats: u32,
        told: Vec<Event>,
    ) -> Result<(Node, House, Vec<Lane>)> {
        let opening = copy(alloc, &self.opening)?;
        let (node, passes) = Node::new(alloc, opening, passes_for(seats))?;
        let mut passes = passes.into_iter();
        let house = new_house(rt, alloc, &node, &mut passes, seats, told)?;
        let lanes = self.lanes.make_all(alloc, &mut passes)?;
        Ok((node, house, lanes))
    }

    /// Ends a life, whose lanes have come back, and begins the next one with the next creation: the
    /// lanes of that, and the life that has ended.
    pub fn turn<R: Wait>(
        &mut self,
        rt: &R,
        hub: &Hub,
        lanes: Vec<Lane>,
    ) -> Result<(Vec<Lane>, EndedLife)> {
        self.opening.creation = self.opening.creation.wrapping_add(1).max(1);
        let opening = copy(hub.alloc, &self.opening)?;
        let next = Some(self.life(hub.alloc)?);
        let (node, new) = Node::new(hub.alloc, opening, passes_for(hub.seats))?;
        let mut new = new.into_iter();
        let mut passes = passes_of(hub.alloc, hub.seats, lanes)?;
        // First what may fail: the life that has ended is lost behind the exchange.
        let of_house = house_passes(hub.alloc, hub.seats, &mut new)?;
        let lanes = self.lanes.make_all(hub.alloc, &mut new)?;
        let mut new = of_house.into_iter();
        exchange(rt, hub, &node, &self.opening.cookie, &mut new, &mut passes)?;
        hub.wake(rt);
        let ended = EndedLife { node, passes, next };
        Ok((lanes, ended))
    }

    /// What an archive says of the life that runs.
    pub fn life(&self, alloc: Global) -> Result<Life, OutOfMemory> {
        Life::of(alloc, &self.opening)
    }
}

/// An error where what a new node was told first leaves no room.
fn check_room<R: Wait>(rt: &R, last_entry: u32, node: &Node) -> Result<()> {
    if is_nearly_full(last_entry, node.shared.lock(rt).core()) {
        bail!("--last-entry: too few for the cookies, names and scopes that were set");
    }
    Ok(())
}

/// The house of a new node, which is told these events.
fn new_house<R: Wait>(
    rt: &R,
    alloc: Global,
    node: &Node,
    passes: &mut vec::IntoIter<Pass>,
    seats: u32,
    told: Vec<Event>,
) -> Result<House> {
    let keeper = new_keeper(rt, node, passes, told)?;
    Ok(House {
        keeper: Mutex::new(keeper),
        sessions: new_sessions(alloc, passes, seats)?,
    })
}

/// The pass by which a new node is told these events before anything else.
fn new_keeper<R: Wait>(
    rt: &R,
    node: &Node,
    passes: &mut vec::IntoIter<Pass>,
    told: Vec<Event>,
) -> Result<Pass> {
    let mut keeper = next_pass(passes)?;
    if let Err(fault) = say_all(rt, node, &mut keeper, told) {
        bail!("a cookie, a name or a scope can't be set: {fault}");
    }
    Ok(keeper)
}

fn new_sessions(
    alloc: Global,
    passes: &mut vec::IntoIter<Pass>,
    seats: u32,
) -> Result<Vec<Mutex<Session>>> {
    let mut sessions = Vec::new(alloc);
    for _ in 0..seats {
        let session = Session::new(alloc, next_caller(passes)?);
        sessions.push(Mutex::new(session))?;
    }
    Ok(sessions)
}

/// Puts the life of a new node into the hub, and the old one, whose cookie was this at its
/// beginning, into this node, while nobody has a seat of the house. The new life is told first what
/// held at the end of the old one, so that nobody is let in where that leaves no room.
fn exchange<R: Wait>(
    rt: &R,
    hub: &Hub,
    node: &Node,
    begun: &Cookie,
    new: &mut vec::IntoIter<Pass>,
    old: &mut Vec<Pass>,
) -> Result<()> {
    let mut house = hub.house.write(rt);
    let told = held(hub.alloc, hub.node.shared.lock(rt).core(), begun)?;
    let keeper = new_keeper(rt, node, new, told)?;
    check_room(rt, hub.last_entry, node)?;
    swap(&mut *hub.node.shared.lock(rt), &mut *node.shared.lock(rt));
    hub.begin_anew();
    old.push(replace(&mut house.keeper, Mutex::new(keeper)).into_inner())?;
    let shared = hub.node.shared.lock(rt);
    change_callers(shared.core(), &mut house.sessions, new, old)
}

/// Gives all sessions passes of the new life, and takes those of the old one.
fn change_callers(
    core: &NodeCore,
    sessions: &mut Vec<Mutex<Session>>,
    passes: &mut vec::IntoIter<Pass>,
    old: &mut Vec<Pass>,
) -> Result<()> {
    for session in sessions.iter_mut() {
        let session = session.get_mut();
        let ended = session.begin_anew(next_caller(passes)?, core);
        old.push(ended.into_pass())?;
    }
    Ok(())
}

/// A copy of an opening.
fn copy(alloc: Global, opening: &Opening) -> Result<Opening> {
    Ok(Opening {
        name: opening.name.try_clone(alloc)?,
        cookie: opening.cookie.try_clone(alloc)?,
        hidden: opening.hidden,
        creation: opening.creation,
        entries: opening.entries,
        links: opening.links,
    })
}

/// The passes of a new house, which stand before those of the lanes.
fn house_passes(alloc: Global, seats: u32, passes: &mut vec::IntoIter<Pass>) -> Result<Vec<Pass>> {
    let mut taken = Vec::new(alloc);
    for _ in 0..seats.saturating_add(1) {
        taken.push(next_pass(passes)?)?;
    }
    Ok(taken)
}

fn passes_of(alloc: Global, seats: u32, lanes: Vec<Lane>) -> Result<Vec<Pass>> {
    let mut passes = Vec::new(alloc);
    // All at once, so that no want of memory comes between the two lives.
    passes.reserve(passes_for(seats) as usize)?;
    for lane in lanes {
        let (reader, writer) = lane.into_passes();
        passes.push(reader)?;
        passes.push(writer)?;
    }
    Ok(passes)
}

/// The end of the last life, of a node in this house.
pub fn last(
    alloc: Global,
    seats: u32,
    node: Node,
    house: House,
    lanes: Vec<Lane>,
) -> Result<EndedLife> {
    let passes = all_passes(alloc, seats, lanes, house)?;
    Ok(EndedLife {
        node,
        passes,
        next: None,
    })
}

fn all_passes(alloc: Global, seats: u32, lanes: Vec<Lane>, house: House) -> Result<Vec<Pass>> {
    let mut passes = passes_of(alloc, seats, lanes)?;
    let House { keeper, sessions } = house;
    passes.push(keeper.into_inner())?;
    add_sessions(sessions, &mut passes)?;
    Ok(passes)
}

fn add_sessions(sessions: Vec<Mutex<Session>>, passes: &mut Vec<Pass>) -> Result<()> {
    for session in sessions {
        passes.push(session.into_inner().into_caller().into_pass())?;
    }
    Ok(())
}
