//! Why a dial has failed.
use std::io::{self, ErrorKind};

/// Why a dial has failed.
#[derive(Clone, Copy, Debug, PartialEq, Eq)]
pub enum DialFault {
    /// The host has no address, or none that is found now.
    NoHost,
    /// No program takes connections there.
    Refused,
    /// Nobody answers there in time.
    Timeout,
    /// No way leads there.
    Unreachable,
    /// Any other fault of the system.
    System,
    /// EPMD isn't there at the host, or says nothing that is understood.
    NoEpmd,
    /// EPMD at the host doesn't have the name.
    Unregistered,
    /// A connection was made, and no link came up over it: one end has refused the other, or said
    /// nothing.
    Handshake,
}

impl DialFault {
    /// That of a connect that failed so.
    pub(crate) fn of(kind: ErrorKind) -> DialFault {
        match kind {
            ErrorKind::ConnectionRefused => DialFault::Refused,
            ErrorKind::TimedOut | ErrorKind::WouldBlock => DialFault::Timeout,
            ErrorKind::HostUnreachable
            | ErrorKind::NetworkUnreachable
            | ErrorKind::AddrNotAvailable => DialFault::Unreachable,
            _ => DialFault::System,
        }
    }

    /// That of a look-up that failed so. A host that the resolver doesn't find, and one that it
    /// can't ask for now, look the same here.
    pub(crate) fn of_look_up(error: &io::Error) -> DialFault {
        if error.raw_os_error().is_some() || error.kind() == ErrorKind::OutOfMemory {
            DialFault::System
        } else {
            DialFault::NoHost
        }
    }

    /// As one word.
    pub fn name(&self) -> &'static str {
        match self {
            DialFault::NoHost => "no_host",
            DialFault::Refused => "refused",
            DialFault::Timeout => "timeout",
            DialFault::Unreachable => "unreachable",
            DialFault::System => "system",
            DialFault::NoEpmd => "no_epmd",
            DialFault::Unregistered => "unregistered",
            DialFault::Handshake => "handshake",
        }
    }

    /// As a sentence.
    pub fn reason(&self) -> &'static str {
        match self {
            DialFault::NoHost => "the host has no address",
            DialFault::Refused => "no program takes connections at that port",
            DialFault::Timeout => "nobody answers there in time",
            DialFault::Unreachable => "no way leads there",
            DialFault::System => "the system makes no connection",
            DialFault::NoEpmd => "EPMD isn't there, or says nothing that is understood",
            DialFault::Unregistered => "EPMD there doesn't have the name",
            DialFault::Handshake =>
                "no link came up: one end has refused the other, or said nothing",
        }
    }
}
