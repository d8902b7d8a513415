//! How far each connection has been told what happens, so that no entry is let go that one has
//! still to be told of.
use dist_types::OutOfMemory;
use std::alloc::Global;
use std::sync::atomic::{AtomicBool, AtomicU32, Ordering};

/// How far a seat has been told that nobody has: nothing is kept for it.
const NOBODY: u32 = u32::MAX;

/// The highest number that is counted with.
const HIGHEST: usize = 4_294_967_294;

/// The connection of a seat.
#[derive(Drop)]
struct Reader {
    /// Of how many entries of this life it has been told.
    told: AtomicU32,
    /// How many monitors it had when it was answered or told last.
    monitors: AtomicU32,
    /// Whether these are to be asked, be there news or not.
    is_to_ask: AtomicBool,
    /// How many looks in a row it has been found to be told too little.
    looks: AtomicU32,
    /// Whether a call of its own waits for links, and its news for that.
    is_held: AtomicBool,
    /// Whether it is ended since it doesn't read.
    is_behind: AtomicBool,
}

impl Reader {
    fn lag(&self, entries: u32) -> u32 {
        match self.told.load(Ordering::SeqCst) {
            NOBODY => 0,
            told => entries.saturating_sub(told),
        }
    }
}

/// The connections of all seats, as far as they are told.
#[derive(Drop)]
pub struct Readers {
    seats: Vec<Reader>,
}

impl Readers {
    /// For so many seats, which nobody has.
    pub fn new(alloc: Global, seats: u32) -> Result<Readers, OutOfMemory> {
        let mut readers = Vec::with_capacity(alloc, seats as usize)?;
        for _ in 0..seats {
            readers.push(Reader {
                told: AtomicU32::new(NOBODY),
                monitors: AtomicU32::new(0),
                is_to_ask: AtomicBool::new(false),
                looks: AtomicU32::new(0),
                is_held: AtomicBool::new(false),
                is_behind: AtomicBool::new(false),
            })?;
        }
        Ok(Readers { seats: readers })
    }

    /// A connection has the seat from now on, where there are so many entries.
    pub(crate) fn enter(&self, seat: usize, entries: usize) {
        if let Some(reader) = self.seats.get(seat) {
            reader.is_behind.store(false, Ordering::SeqCst);
            reader.looks.store(0, Ordering::SeqCst);
            reader.monitors.store(0, Ordering::SeqCst);
            reader.is_to_ask.store(false, Ordering::SeqCst);
            reader
                .told
                .store(entries.min(HIGHEST) as u32, Ordering::SeqCst);
        }
    }

    /// The connection of the seat has been told of so many entries, and has so many monitors.
    pub(crate) fn note(&self, seat: usize, entries: usize, monitors: usize) {
        if let Some(reader) = self.seats.get(seat) {
            reader.looks.store(0, Ordering::SeqCst);
            reader
                .monitors
                .store(monitors.min(HIGHEST) as u32, Ordering::SeqCst);
            reader
                .told
                .store(entries.min(HIGHEST) as u32, Ordering::SeqCst);
        }
    }

    /// Whether the connection of the seat has monitors, as far as is known.
    pub(crate) fn has_monitors(&self, seat: usize) -> bool {
        match self.seats.get(seat) {
            Some(reader) => reader.monitors.load(Ordering::SeqCst) > 0,
            None => false,
        }
    }

    /// The connection of the seat has so many monitors: whether these are its first.
    pub(crate) fn begins_to_watch(&self, seat: usize, monitors: usize) -> bool {
        let monitors = monitors.min(HIGHEST) as u32;
        match self.seats.get(seat) {
            Some(reader) => reader.monitors.swap(monitors, Ordering::SeqCst) == 0 && monitors > 0,
            None => false,
        }
    }

    /// Connections that have monitors are to ask them.
    pub(crate) fn ask_monitors(&self) {
        for reader in &self.seats {
            if reader.monitors.load(Ordering::SeqCst) > 0 {
                reader.is_to_ask.store(true, Ordering::SeqCst);
            }
        }
    }

    /// Whether the connection of the seat is to ask its monitors.
    pub(crate) fn is_to_ask(&self, seat: usize) -> bool {
        match self.seats.get(seat) {
            Some(reader) => reader.is_to_ask.load(Ordering::SeqCst),
            None => false,
        }
    }

    /// The connection of the seat asks its monitors now.
    pub(crate) fn begin_to_ask(&self, seat: usize) {
        if let Some(reader) = self.seats.get(seat) {
            reader.is_to_ask.store(false, Ordering::SeqCst);
        }
    }

    /// Nobody is told any more at the seat.
    pub fn leave(&self, seat: usize) {
        if let Some(reader) = self.seats.get(seat) {
            reader.monitors.store(0, Ordering::SeqCst);
            reader.told.store(NOBODY, Ordering::SeqCst);
        }
    }

    /// A new life begins, of which nobody has been told anything.
    pub(crate) fn begin_anew(&self) {
        for reader in &self.seats {
            if reader.told.load(Ordering::SeqCst) != NOBODY {
                reader.monitors.store(0, Ordering::SeqCst);
                reader.told.store(0, Ordering::SeqCst);
            }
        }
    }

    /// How many of these entries the connection of a seat hasn't been told of.
    pub(crate) fn lag(&self, seat: usize, entries: u32) -> u32 {
        match self.seats.get(seat) {
            Some(reader) => reader.lag(entries),
            None => 0,
        }
    }

    /// How many of these entries the one hasn't been told of that is told last.
    pub(crate) fn most_lag(&self, entries: u32) -> u32 {
        let mut most = 0;
        for reader in &self.seats {
            most = reader.lag(entries).max(most);
        }
        most
    }

    /// How many monitors all have.
    pub(crate) fn monitors(&self) -> u32 {
        let mut monitors: u32 = 0;
        for reader in &self.seats {
            monitors = monitors.saturating_add(reader.monitors.load(Ordering::SeqCst));
        }
        monitors
    }

    /// The connection of a seat is found once more to be told too little: how often in a row.
    pub(crate) fn count_look(&self, seat: usize) -> u32 {
        match self.seats.get(seat) {
            Some(reader) => reader
                .looks
                .fetch_add(1, Ordering::SeqCst)
                .saturating_add(1),
            None => 0,
        }
    }

    /// A call of the connection of the seat waits for links from now on, or no more.
    pub(crate) fn hold(&self, seat: usize, is_held: bool) {
        if let Some(reader) = self.seats.get(seat) {
            reader.looks.store(0, Ordering::SeqCst);
            reader.is_held.store(is_held, Ordering::SeqCst);
        }
    }

    /// Whether a call of the connection of the seat waits for links.
    pub(crate) fn is_held(&self, seat: usize) -> bool {
        match self.seats.get(seat) {
            Some(reader) => reader.is_held.load(Ordering::SeqCst),
            None => false,
        }
    }

    /// The connection of the seat is to be ended, since it doesn't read: whether that is new.
    pub(crate) fn mark_behind(&self, seat: usize) -> bool {
        match self.seats.get(seat) {
            Some(reader) => !reader.is_behind.swap(true, Ordering::SeqCst),
            None => false,
        }
    }

    /// Whether the connection of the seat is to be ended, since it doesn't read.
    pub fn is_behind(&self, seat: usize) -> bool {
        match self.seats.get(seat) {
            Some(reader) => reader.is_behind.load(Ordering::SeqCst),
            None => false,
        }
    }
}
