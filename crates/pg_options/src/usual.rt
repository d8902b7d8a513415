//! What options with a value are where none is given, and as words, as the parser shows it.

/// How many entries the node keeps.
pub const ENTRIES: u32 = 100_000;

pub const ENTRIES_WORD: &str = "100000";

/// The highest version of link messages that it knows.
pub const LINKS: u8 = 1;

pub const LINKS_WORD: &str = "1";

/// The most clients of the control socket at once.
pub const CLIENTS: u32 = 100;

pub const CLIENTS_WORD: &str = "100";

/// The milliseconds for a whole handshake.
pub const SETUP: u32 = 7_000;

pub const SETUP_WORD: &str = "7000";

/// Those for which a link may be silent.
pub const TICK: u32 = 60_000;

pub const TICK_WORD: &str = "60000";

/// The port of EPMD.
pub const EPMD: u16 = 4_369;

pub const EPMD_WORD: &str = "4369";

/// How the node logs, and from which level on.
pub const FORMAT: &str = "text";

pub const LEVEL: &str = "info";
