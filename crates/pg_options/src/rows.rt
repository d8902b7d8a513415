//! The options of the program, a row each, in the order of its help.
use crate::usual::{
    CLIENTS_WORD, ENTRIES_WORD, EPMD_WORD, FORMAT, LEVEL, LINKS_WORD, SETUP_WORD, TICK_WORD,
};
use clap::builder::ValueParser;

/// The greatest numbers of 16, 32 and 64 bits.
const MOST_16: i64 = 65_535;

const MOST_32: i64 = 4_294_967_295;

const MOST_64: u64 = 18_446_744_073_709_551_615;

/// What an option takes, by what the help calls it.
#[derive(Clone, Copy)]
pub enum Takes {
    Text(&'static str),
    /// May be given more than once.
    Texts(&'static str),
    /// A whole number within bounds.
    Number(&'static str, ValueParser<'static>),
    /// Takes no value.
    Switch,
}

impl Takes {
    /// What is said where a key of a file has another value.
    pub fn wanted(self) -> &'static str {
        match self {
            Takes::Text(_) => "not a text between quotes",
            Takes::Texts(_) => "not a list of texts between quotes",
            Takes::Number(_, _) => "not a whole number",
            Takes::Switch => "not true or false",
        }
    }
}

/// What is taken where no value is given.
#[derive(Clone, Copy)]
pub enum Otherwise {
    Nothing,
    Usual(&'static str),
    /// This where the option stands without a value, and else nothing.
    Bare(&'static str),
}

/// An option.
pub struct Row {
    pub name: &'static str,
    pub takes: Takes,
    pub otherwise: Otherwise,
    /// Empty where the help of the program leaves the option out.
    pub help: &'static str,
}

pub static ROWS: [Row; 29] = [
    Row {
        name: "cookie-file",
        takes: Takes::Text("FILE"),
        otherwise: Otherwise::Nothing,
        help: "A file with the secret that the node shares with its peers",
    },
    Row {
        name: "cookie",
        takes: Takes::Text("TEXT"),
        otherwise: Otherwise::Nothing,
        help: "The secret itself, which others can see on the command line",
    },
    Row {
        name: "cookie-for",
        takes: Takes::Texts("NAME=FILE"),
        otherwise: Otherwise::Nothing,
        help: "A file with the secret for one peer",
    },
    Row {
        name: "allow",
        takes: Takes::Texts("NAME"),
        otherwise: Otherwise::Nothing,
        help: "A peer that may connect; all may, where none is given",
    },
    Row {
        name: "hidden",
        takes: Takes::Switch,
        otherwise: Otherwise::Nothing,
        help: "Makes each link a hidden one",
    },
    Row {
        name: "creation",
        takes: Takes::Number("N", ValueParser::Signed(1, MOST_32)),
        otherwise: Otherwise::Nothing,
        help: "The node's creation, at least 1; drawn where it isn't given",
    },
    Row {
        name: "entries",
        takes: Takes::Number("N", ValueParser::Signed(64, MOST_32)),
        otherwise: Otherwise::Usual(ENTRIES_WORD),
        help: "How many entries the node keeps, at least 64; older ones go to the archive",
    },
    // For tests: the node begins anew before its entries come to this number.
    Row {
        name: "last-entry",
        takes: Takes::Number("N", ValueParser::Signed(64, MOST_32)),
        otherwise: Otherwise::Nothing,
        help: "",
    },
    Row {
        name: "audit",
        takes: Takes::Text("FILE"),
        otherwise: Otherwise::Nothing,
        help: "An archive, to which entries go that the node keeps no more",
    },
    Row {
        name: "audit-size",
        takes: Takes::Number("BYTES", ValueParser::Unsigned(4096, MOST_64)),
        otherwise: Otherwise::Nothing,
        help: "The most bytes of a file of the archive, at least 4096; \
               further ones begin a new file",
    },
    Row {
        name: "log",
        takes: Takes::Text("FORMAT"),
        otherwise: Otherwise::Usual(FORMAT),
        help: "How the node logs what it decides, on standard error: text, json or none",
    },
    Row {
        name: "log-level",
        takes: Takes::Text("LEVEL"),
        otherwise: Otherwise::Usual(LEVEL),
        help: "The least level that is logged: error, warn or info",
    },
    Row {
        name: "config",
        takes: Takes::Text("FILE"),
        otherwise: Otherwise::Nothing,
        help: "A file of these options, in TOML; the command line goes first",
    },
    Row {
        name: "control",
        takes: Takes::Text("PATH"),
        otherwise: Otherwise::Nothing,
        help: "A Unix socket for commands",
    },
    Row {
        name: "control-mode",
        takes: Takes::Text("MODE"),
        otherwise: Otherwise::Nothing,
        help: "The mode of that, 0600 where none is given",
    },
    Row {
        name: "control-read",
        takes: Takes::Text("PATH"),
        otherwise: Otherwise::Nothing,
        help: "A Unix socket for reads and monitors alone",
    },
    Row {
        name: "control-read-mode",
        takes: Takes::Text("MODE"),
        otherwise: Otherwise::Nothing,
        help: "The mode of that, 0660 where none is given",
    },
    Row {
        name: "clients",
        takes: Takes::Number("N", ValueParser::Signed(1, 126)),
        otherwise: Otherwise::Usual(CLIENTS_WORD),
        help: "The most clients of the control socket at once, up to 126",
    },
    Row {
        name: "http",
        takes: Takes::Text("ADDR:PORT"),
        otherwise: Otherwise::Nothing,
        help: "A page, metrics and health over HTTP, at an address of this machine",
    },
    Row {
        name: "http-anywhere",
        takes: Takes::Switch,
        otherwise: Otherwise::Nothing,
        help: "Lets --http be at any address, where others can look on",
    },
    Row {
        name: "listen",
        takes: Takes::Text("HOST:PORT"),
        otherwise: Otherwise::Nothing,
        help: "Where peers connect; port 0 is a free one",
    },
    Row {
        name: "dial",
        takes: Takes::Texts("NAME=HOST:PORT"),
        otherwise: Otherwise::Nothing,
        help: "A peer to keep a link to",
    },
    Row {
        name: "otp-dial",
        takes: Takes::Texts("NAME[=HOST:PORT]"),
        otherwise: Otherwise::Nothing,
        help: "A stock node of Erlang/OTP to keep a link to; without a place EPMD is asked",
    },
    Row {
        name: "otp-listen",
        takes: Takes::Text("HOST:PORT"),
        otherwise: Otherwise::Nothing,
        help: "Where stock nodes of Erlang/OTP connect; port 0 is a free one",
    },
    Row {
        name: "otp-visible",
        takes: Takes::Switch,
        otherwise: Otherwise::Nothing,
        help: "Makes the node one of the nodes of stock nodes, and not a hidden one",
    },
    Row {
        name: "epmd",
        takes: Takes::Number("PORT", ValueParser::Signed(1, MOST_16)),
        otherwise: Otherwise::Bare(EPMD_WORD),
        help: "Registers the node with EPMD on this machine, by its port; 4369 where none is given",
    },
    Row {
        name: "links",
        takes: Takes::Number("N", ValueParser::Signed(1, 2)),
        otherwise: Otherwise::Usual(LINKS_WORD),
        help: "The highest version of link messages that the node knows, 1 or 2",
    },
    Row {
        name: "setuptime",
        takes: Takes::Number("MS", ValueParser::Signed(8, MOST_32)),
        otherwise: Otherwise::Usual(SETUP_WORD),
        help: "For a whole handshake",
    },
    Row {
        name: "ticktime",
        takes: Takes::Number("MS", ValueParser::Signed(8, MOST_32)),
        otherwise: Otherwise::Usual(TICK_WORD),
        help: "A link is lost that is silent for so long",
    },
];
