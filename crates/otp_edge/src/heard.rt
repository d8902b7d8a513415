//! What comes of a body of the peer.
ghost use Rattle.std.specs.Prelude.{◌≡◌, ◌↔◌, [], cond, Some, None, false, IfOk, IsTrue, OnOk};
ghost use Rattle.otp_edge.specs.Handed.{AreFrames};
ghost use Rattle.otp_edge.specs.Lefts.{IsCutBy};
ghost use Rattle.otp_edge.specs.Opens.{ComesOf, IsNothing, IsOnly, message_in, left_in};

use crate::left::Left;
use crate::link_bytes::put_message;
use crate::scope_edge::HeardWord;
use crate::word::Word;
use dist_types::{OutOfMemory, Scope, TryClone};
use link_frames::Message;
use std::alloc::Global;

/// What comes of a body: at most two messages that are handed in, the first a Down of the same
/// scope, and what the peer is sent back.
#[derive(Debug, Drop)]
pub struct Heard {
    /// The scope of which a Down is handed in first.
    pub down: Option<Scope>,
    /// What is handed in then.
    pub message: Option<Message>,
    /// Rows that the peer asks to leave. They are handed in once `cut` has the counts of those
    /// that are listed.
    pub left: Option<Left>,
    /// Bodies behind their lengths, which the peer is sent.
    pub owed: Vec<u8>,
}

impl Heard {
    /// Nothing is handed in.
    pub fn only_owed(owed: Vec<u8>) -> Heard
        ensures nothing { IsNothing result }
        ensures owed { result.owed ≡ owed }
    {
        Heard {
            down: None,
            message: None,
            left: None,
            owed,
        }
    }

    /// A message is handed in, and nothing before it.
    pub fn only_message(alloc: Global, message: Message) -> Heard
        ensures only { IsOnly message result }
        ensures owed { result.owed.items ≡ [] }
    {
        Heard {
            down: None,
            message: Some(message),
            left: None,
            owed: Vec::new(alloc),
        }
    }

    /// Whether nothing is handed in.
    pub fn is_nothing(&self) -> bool
        ensures { IsTrue result ↔ IsNothing self.now }
    {
        self.down.is_none() && self.message.is_none() && self.left.is_none()
    }

    /// Cuts a leave to what is listed: `counts` has, for each row of `left`, how often the node
    /// lists it of the peer.
    pub fn cut(&mut self, alloc: Global, counts: &[usize]) -> Result<(), OutOfMemory>
        ensures cut { OnOk result (IsCutBy counts.now self.old.left self.old.message
            self.new.message) }
        ensures none { self.new.left ≡ None }
        ensures down { self.new.down ≡ self.old.down }
        ensures owed { self.new.owed ≡ self.old.owed }
    {
        if let Some(left) = self.left.take() {
            self.message = left.cut(alloc, counts)?;
        }
        Ok(())
    }

    /// What is handed in, as the bytes of a link: each message behind its length, in parts where
    /// the link is of version 2.
    pub fn link_bytes(&self, alloc: Global, in_parts: bool) -> Result<Vec<u8>, OutOfMemory>
        // Not said of a link in parts.
        ensures { in_parts ≡ false → IfOk result (λ out. AreFrames self.now out.items) }
    {
        let mut out = Vec::new(alloc);
        if let Some(scope) = &self.down {
            let down = Message::Down(scope.try_clone(alloc)?);
            put_message(alloc, &down, in_parts, &mut out)?;
        }
        if let Some(message) = &self.message {
            put_message(alloc, message, in_parts, &mut out)?;
        }
        Ok(out)
    }
}

/// What comes of a word of that scope, of which `copy` is another copy.
pub fn heard_of(scope: Scope, copy: Scope, heard: HeardWord, owed: Vec<u8>) -> Heard
    requires { copy ≡ scope }
    ensures comes { ComesOf scope heard result }
    ensures owed { result.owed ≡ owed }
{
    let down = down_of(heard.is_down, copy);
    match heard.word {
        Some(word) => said_of(down, scope, word, owed),
        None => Heard {
            down,
            message: None,
            left: None,
            owed,
        },
    }
}

fn down_of(is_down: bool, scope: Scope) -> Option<Scope>
    ensures { result ≡ cond is_down (Some scope) None }
{
    if is_down { Some(scope) } else { None }
}

fn said_of(down: Option<Scope>, scope: Scope, word: Word, owed: Vec<u8>) -> Heard
    ensures down { result.down ≡ down }
    ensures message { result.message ≡ message_in scope (Some word) }
    ensures left { result.left ≡ left_in scope (Some word) }
    ensures owed { result.owed ≡ owed }
{
    match word {
        Word::Leave(rows) => Heard {
            down,
            message: None,
            left: Some(Left { scope, rows }),
            owed,
        },
        Word::Discover => handed(down, Message::Discover(scope), owed),
        Word::Sync(rows) => handed(down, Message::Sync(scope, rows), owed),
        Word::Join(rows) => handed(down, Message::Join(scope, rows), owed),
        Word::Down => handed(down, Message::Down(scope), owed),
    }
}

fn handed(down: Option<Scope>, message: Message, owed: Vec<u8>) -> Heard
    ensures down { result.down ≡ down }
    ensures message { result.message ≡ Some message }
    ensures left { result.left ≡ None }
    ensures owed { result.owed ≡ owed }
{
    Heard {
        down,
        message: Some(message),
        left: None,
        owed,
    }
}
