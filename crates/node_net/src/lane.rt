//! A lane: two passes that serve one link after another.
ghost use Rattle.std.specs.Prelude.{◌≡◌, ℕ, IfOk, IfErr, IfSome};
ghost use Rattle.std.specs.List.{Contains};
ghost use Rattle.node_net.specs.LaneCalls.{IsLane, IsBegun, IsUsed, IsOpening, Opens, OpensNext, own_links};

use cookie_digest::ChallengeSource;
use node_threads::{Connection, Gate, LinkOut, Node, Pair, Pass, serve_link};
use policy_audit::{Event, Reply};
use rand_chacha::ChaCha20Rng;
use std::alloc::Global;
use std::io::Read;
use std::marker::Model;
use std::sync::Wait;
use std::thread::Threads;

/// Two passes that serve one link after another, and a source of challenges. Whatever a peer sends,
/// they only ever call Opened and Dial, each with the next word of the source, and Frame, Take and
/// Lost of the links that these opened.
pub struct Lane {
    reader: Pass,
    writer: Pass,
    /// That of the next link. It is drawn already, so that it can be guarded before the link is
    /// opened.
    challenge: u32,
    source: ChallengeSource<ChaCha20Rng>,
}

impl Drop for Lane {
    fn drop(self) {
        let Lane {
            reader: _,
            writer: _,
            challenge: _,
            source: _,
        } = self;
    }
}

impl Model for Lane {
    ghost use Rattle.node_net.specs.LaneCalls.{Pair, IsLane};

    ghost Value = { Pair };

    ghost view = { λ lane. record {
      reader = lane.reader;
      writer = lane.writer;
      challenge = lane.challenge;
      left = lane.source;
    } };

    ghost invariant = { λ lane. IsLane (record {
      reader = lane.reader;
      writer = lane.writer;
      challenge = lane.challenge;
      left = lane.source;
    }) };
}

/// A pass that has made calls before can't be a lane's; both come back.
#[derive(Debug)]
pub struct UsedPass {
    pub reader: Pass,
    pub writer: Pass,
}

impl Drop for UsedPass {
    fn drop(self) {
        let UsedPass {
            reader: _,
            writer: _,
        } = self;
    }
}

impl Lane {
    /// A lane of two passes that have made no calls. No two lanes may draw the same challenges.
    pub fn new(
        reader: Pass,
        writer: Pass,
        mut source: ChallengeSource<ChaCha20Rng>,
    ) -> Result<Lane, UsedPass>
        ensures ok { IfOk result (λ lane. IsBegun reader writer source lane) }
        ensures refused { IfErr result (λ _. IsUsed reader writer) }
        ensures back { IfErr result (λ used. (used.reader ≡ reader) × (used.writer ≡ writer)) }
    {
        if reader.count() > 0 || writer.count() > 0 {
            return Err(UsedPass { reader, writer });
        }
        let challenge = source.draw();
        Ok(Lane {
            reader,
            writer,
            challenge,
            source,
        })
    }

    /// The passes, for the node's `close`.
    pub fn into_passes(self) -> (Pass, Pass)
        ensures both { (result.0 ≡ self.reader) × (result.1 ≡ self.writer) }
        ensures lane { IsLane self }
    {
        let Lane {
            reader,
            writer,
            challenge: _,
            source: _,
        } = self;
        (reader, writer)
    }

    /// The challenge for the next link.
    pub(crate) fn challenge(&self) -> u32
        ensures { result ≡ self.now.challenge }
    {
        self.challenge
    }

    /// Opens a link with its challenge: its number, unless the node refuses it. A call that makes
    /// an entry uses the challenge up.
    pub(crate) fn open<R: Wait>(&mut self, rt: &R, node: &Node, event: Event) -> Option<u32>
        requires opening { IsOpening self.old.challenge event }
        ensures own { IfSome result (Contains (own_links self.new.reader.calls)) }
        ensures next { OpensNext self.old self.new }
    {
        let before = self.reader.count();
        let link = open_link(&mut self.reader, rt, node, event);
        if self.reader.count() > before {
            self.challenge = self.source.draw();
        }
        link
    }

    /// Serves a link that it has opened, until it ends.
    pub(crate) fn serve<R, I, W, G>(
        self,
        rt: &R,
        alloc: Global,
        node: &Node,
        connection: Connection<I, W>,
        gate: &G,
    ) -> Lane
    where
        R: Threads + Wait + Sync,
        I: Read + Drop,
        W: LinkOut + Send + Drop,
        G: Gate,
        requires own { Contains (own_links self.reader.calls) connection.link }
        ensures kept { (result.challenge ≡ self.challenge) × (result.left ≡ self.left) }
    {
        let Lane {
            reader,
            writer,
            challenge,
            source,
        } = self;
        let pair = Pair { reader, writer };
        let served = serve_link(rt, alloc, node, pair, connection, gate);
        let Pair { reader, writer } = served.pair;
        Lane {
            reader,
            writer,
            challenge,
            source,
        }
    }
}

/// Calls an event that opens a link: its number, unless the node refuses it.
fn open_link<R: Wait>(pass: &mut Pass, rt: &R, node: &Node, event: Event) -> Option<u32>
    requires opening { (challenge : ℕ) × IsOpening challenge event }
    ensures { Opens event result pass.old pass.new }
{
    match pass.call(node, rt, event) {
        Ok(Reply::Link(link)) => Some(*link),
        _ => None,
    }
}
