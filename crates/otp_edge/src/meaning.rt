//! What is heard of a process of a scope.
ghost use Rattle.std.specs.Prelude.{◌≡◌, length};
ghost use Rattle.otp_edge.specs.Meaning.{rows_uncut, speaker_of};

use dist_types::{Items, Pid, Row};

/// What the process of a scope says. It names itself first. Groups that aren't carried are left
/// out.
#[derive(Debug, Drop, PartialEq, Eq)]
pub enum Said {
    /// It runs, and asks for the receiver's members.
    Discover(Pid),
    /// All its members, each as often as it joined.
    Sync(Pid, Items<Row>),
    /// Processes that joined; none where their group isn't carried, or where it names none.
    Join(Pid, Items<Row>),
    /// Processes that were asked to leave: not all of them were members.
    Leave(Pid, Items<Row>),
}

/// The process that says it.
pub fn speaker(said: &Said) -> &Pid
    ensures { result.now ≡ speaker_of said.now }
{
    match said {
        Said::Discover(pid) => pid,
        Said::Sync(pid, _) | Said::Join(pid, _) | Said::Leave(pid, _) => pid,
    }
}

/// How many rows are handed in of it at most: of a leave those that are listed.
pub fn row_count(said: &Said) -> usize
    ensures { result ≡ length (rows_uncut said.now) }
{
    match said {
        Said::Sync(_, rows) | Said::Join(_, rows) => rows.as_slice().len(),
        Said::Discover(_) | Said::Leave(..) => 0,
    }
}
