//! Why peers are down.
ghost use Rattle.std.specs.Prelude.{◌≡◌};
ghost use Rattle.pg_text.specs.DownReasons.{reason_word};

/// Why a peer is down.
#[derive(Clone, Copy, Debug, PartialEq, Eq)]
pub enum DownReason {
    /// The peer or the network closed the connection.
    Closed,
    /// Nothing came for the tick time.
    Silent,
    /// A write stood still for so long, or too many frames waited.
    Slow,
    /// A newer link of that name took its place.
    Replaced,
    /// What came can't be read, or is more than is taken.
    Unreadable,
    /// By a Disconnect of this node.
    Disconnected,
    /// This node begins anew.
    Restarted,
}

impl DownReason {
    /// All of them, each once.
    pub const ALL: [DownReason; 7] = [
        DownReason::Closed,
        DownReason::Silent,
        DownReason::Slow,
        DownReason::Replaced,
        DownReason::Unreadable,
        DownReason::Disconnected,
        DownReason::Restarted,
    ];

    /// As one word.
    pub fn word(self) -> &'static str
        ensures { result.now ≡ reason_word self }
    {
        match self {
            DownReason::Closed => "closed",
            DownReason::Silent => "silent",
            DownReason::Slow => "slow",
            DownReason::Replaced => "replaced",
            DownReason::Unreadable => "unreadable",
            DownReason::Disconnected => "disconnected",
            DownReason::Restarted => "restarted",
        }
    }
}
