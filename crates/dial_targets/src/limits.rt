//! Limits of time.
use crate::peer_kind::PeerKind;
use std::time::Duration;

/// In how many parts the time is cut that a peer may be silent.
const PULSES: u32 = 8;

/// After so many milliseconds it is looked whether a stock node is to be asked again.
const ASKING: u64 = 500;

/// How long a link may take to come up, and how long it may be silent.
#[derive(Clone, Copy, Debug)]
pub struct Limits {
    /// For a whole handshake (OTP: `net_setuptime`).
    pub setup: Duration,
    /// A link that is up is lost where nothing has come for so long, or a write has stood still. A
    /// tick goes out at the latest after a quarter of it without other frames (OTP:
    /// `net_ticktime`).
    pub tick: Duration,
}

impl Default for Limits {
    /// Those of OTP: 7 and 60 seconds.
    fn default() -> Limits {
        Limits {
            setup: Duration::from_secs(7),
            tick: Duration::from_secs(60),
        }
    }
}

impl Limits {
    /// Between two looks at a link that is up.
    pub fn pulse(&self) -> Duration {
        self.tick / PULSES
    }

    /// How often the reader of a link looks whether something has come.
    pub fn looks(&self, kind: PeerKind) -> Looks {
        let pulse = self.pulse();
        if !kind.is_otp() {
            return Looks {
                time: pulse,
                most: PULSES,
            };
        }
        let time = pulse.min(Duration::from_millis(ASKING));
        let parts = self.tick.as_millis() / time.as_millis().max(1);
        Looks {
            time,
            most: parts.min(u128::from(u32::MAX)) as u32,
        }
    }
}

/// How long a reader waits at once, and how often in a row for nothing before the link is lost.
#[derive(Clone, Copy, Debug)]
pub struct Looks {
    pub time: Duration,
    pub most: u32,
}
