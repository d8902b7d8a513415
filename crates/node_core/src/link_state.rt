//! The state of a link.
use link_states::{AwaitAck, AwaitAnswer, AwaitChallenge, AwaitName, AwaitReply, AwaitStatus, Up};

/// What a link awaits.
#[derive(Drop)]
pub enum LinkState {
    Name(AwaitName),
    Answer(AwaitAnswer),
    Reply(AwaitReply),
    Status(AwaitStatus),
    Challenge(AwaitChallenge),
    Ack(AwaitAck),
    Up(Up),
    /// The link ended by a refused frame of its own. It is kept as long as frames wait for it.
    Ended,
}
