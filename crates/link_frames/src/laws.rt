//! Laws of the grammar and of streams. Each function does nothing; its contract is the law.
ghost use Rattle.std.specs.Prelude.{◌≡◌, ◌≢◌, ◌≤◌, ◌↔◌, ◌++◌, [], ℕ, List, Option, Some, length, take, option_to_list};
ghost use Rattle.link_frames.specs.declared.message.Message.{Message};
ghost use Rattle.link_frames.specs.Spelling.{IsMessage, message_bytes, SpellsMessage};
ghost use Rattle.link_frames.specs.Reading.{message};
ghost use Rattle.handshake_frames.specs.Stream.{Call, stream_of, bodies_of};
ghost use Rattle.link_frames.specs.declared.fault.FeedFault.{FeedFault};
ghost use Rattle.link_frames.specs.declared.fault.FeedFault.TheVariants as feed_faults;
ghost use Rattle.link_frames.specs.Stream.{max_body, IsFed, ComesTooLong, Progress, Feeds, IsTooLong, IsFeedFault, SplitsLink, AreFed};

/// A message within the grammar has exactly one spelling, which `encode` appends, and another
/// message has none.
pub fn one_spelling()
    ensures within { (body : List ℕ) (m : Message) → IsMessage m → SpellsMessage body m
        ↔ (body ≡ message_bytes m) }
    ensures outside { (body : List ℕ) (m : Message) → ¬ IsMessage m → ¬ SpellsMessage body m }
{}

/// What `encode` appends spells its message, so `decode` reads it again.
pub fn round_trip()
    ensures { (m : Message) → IsMessage m → SpellsMessage (message_bytes m) m }
{}

/// A message within the grammar is short enough for the reader of its stream.
pub fn fits_a_reader()
    ensures { (m : Message) → IsMessage m → length (message_bytes m) ≤ max_body }
{}

/// A body spells at most one message.
pub fn one_message()
    ensures { (body : List ℕ) (m n : Message) → SpellsMessage body m → SpellsMessage body n
        → m ≡ n }
{}

/// The reader that computes gives a message exactly where the body spells it.
pub fn readers()
    ensures { (body : List ℕ) (m : Message) → (message body ≡ Some m) ↔ SpellsMessage body m }
{}

/// The bodies of a stream, and the rest of it, are the same however it is cut into pieces.
#[tactic(auto, using(crate::proofs::LinkLemmas::goes_on, crate::proofs::LinkLemmas::read_from_empty))]
pub fn any_cut()
    // One call of a reader carries the reading of a stream on.
    ensures step { (stream : List ℕ) (bodies : List (List ℕ)) (rest piece : List ℕ)
        (used : ℕ) (body : Option (List ℕ)) (new : List ℕ) →
        SplitsLink stream bodies rest → IsFed rest piece used body new →
        SplitsLink (stream ++ take used piece) (bodies ++ option_to_list body) new }
    // So what a new reader gave and holds, after any calls, is the reading of what it used.
    ensures run { (calls : List Call) (rest : List ℕ) → AreFed [] calls rest →
        SplitsLink (stream_of calls) (bodies_of calls) rest }
    // A stream has one reading.
    ensures only { (stream : List ℕ) (bodies others : List (List ℕ)) (rest last : List ℕ) →
        SplitsLink stream bodies rest → SplitsLink stream others last → (bodies ≡ others)
        × (rest ≡ last) }
    // So two readers that used one stream gave the same bodies and hold the same rest.
    ensures cut { (calls others : List Call) (rest last : List ℕ) →
        AreFed [] calls rest → AreFed [] others last → stream_of calls ≡ stream_of others →
        (bodies_of calls ≡ bodies_of others) × (rest ≡ last) }
{}

/// `TooLong` comes exactly where it is due, and then for good.
pub fn too_long()
    // A piece of which a reader used something, or all, had no body that is too long before that.
    ensures only { (old : Progress) (piece : List ℕ) (used : ℕ) (body : Option (List ℕ))
        (new : Progress) →
        Feeds old piece used body new → ¬ IsTooLong old piece }
    // After it a reader isn't fed any more, and no fault but `TooLong` is its answer.
    ensures stays { (old : Progress) (piece : List ℕ) (new : Progress)
        → IsFeedFault feed_faults.TooLong old piece new →
        ((next : List ℕ) (used : ℕ) (body : Option (List ℕ)) (last : Progress)
        → ¬ Feeds new next used body last)
        × ((next : List ℕ) (fault : FeedFault) (last : Progress) → IsFeedFault fault new next last
        → fault ≡ feed_faults.TooLong) }
    // However a stream is cut, no reader uses the length that is too long for one of them.
    ensures cut { (calls others : List Call) (rest last piece later : List ℕ) →
        AreFed [] calls rest → ComesTooLong rest piece → AreFed [] others last →
        stream_of others ≢ stream_of calls ++ piece ++ later }
{}
