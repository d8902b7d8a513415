//! Laws of the grammar and of streams. Each function does nothing; its contract is the law.
ghost use Rattle.std.specs.Prelude.{◌≡◌, ◌↔◌, ◌++◌, [], ℕ, List, Option, Some, take, option_to_list};
ghost use Rattle.std.specs.Int.{w16};
ghost use Rattle.handshake_frames.specs.declared.frame.StatusWord.{StatusWord};
ghost use Rattle.handshake_frames.specs.declared.frame.ReplyFrame.{ReplyFrame};
ghost use Rattle.handshake_frames.specs.declared.frame.AckFrame.{AckFrame};
ghost use Rattle.handshake_frames.specs.Frame.{Name, Challenge};
ghost use Rattle.handshake_frames.specs.Spelling.{NameFits, ChallengeFits, ReplyFits, AckFits, name_bytes, status_bytes, challenge_bytes, reply_bytes, ack_bytes, SpellsName, SpellsStatus, SpellsChallenge, SpellsReply, SpellsAck};
ghost use Rattle.handshake_frames.specs.Reading.{name_frame, status_of, challenge_frame, reply_frame, ack_frame};
ghost use Rattle.handshake_frames.specs.Stream.{Splits, IsFed, Call, AreFed, stream_of, bodies_of};

/// What `encode` appends spells its frame, so the decoder of that kind reads it again.
pub fn round_trip()
    ensures name { (f : Name) → NameFits f → SpellsName (name_bytes f) f }
    ensures status { (word : StatusWord) → SpellsStatus (status_bytes word) word }
    ensures challenge { (f : Challenge) → ChallengeFits f → SpellsChallenge (challenge_bytes f) f }
    ensures reply { (f : ReplyFrame) → ReplyFits f → SpellsReply (reply_bytes f) f }
    ensures ack { (f : AckFrame) → AckFits f → SpellsAck (ack_bytes f) f }
{}

/// A body spells at most one frame of a kind.
pub fn one_frame()
    ensures name { (body : List ℕ) (f g : Name) → SpellsName body f → SpellsName body g → f ≡ g }
    ensures status { (body : List ℕ) (f g : StatusWord) → SpellsStatus body f → SpellsStatus body g
        → f ≡ g }
    ensures challenge { (body : List ℕ) (f g : Challenge) → SpellsChallenge body f
        → SpellsChallenge body g → f ≡ g }
    ensures reply { (body : List ℕ) (f g : ReplyFrame) → SpellsReply body f → SpellsReply body g
        → f ≡ g }
    ensures ack { (body : List ℕ) (f g : AckFrame) → SpellsAck body f → SpellsAck body g → f ≡ g }
{}

/// The readers that compute give a frame exactly where the body spells it.
pub fn readers()
    ensures name { (body : List ℕ) (f : Name) → (name_frame body ≡ Some f) ↔ SpellsName body f }
    ensures status { (body : List ℕ) (word : StatusWord) → (status_of body ≡ Some word)
        ↔ SpellsStatus body word }
    ensures challenge { (body : List ℕ) (f : Challenge) → (challenge_frame body ≡ Some f)
        ↔ SpellsChallenge body f }
    ensures reply { (body : List ℕ) (f : ReplyFrame) → (reply_frame body ≡ Some f)
        ↔ SpellsReply body f }
    ensures ack { (body : List ℕ) (f : AckFrame) → (ack_frame body ≡ Some f) ↔ SpellsAck body f }
{}

/// The bodies of a stream, and the rest of it, are the same however it is cut into pieces.
pub fn any_cut()
    // One call of a reader carries the reading of a stream on.
    ensures step { (stream : List ℕ) (bodies : List (List ℕ)) (rest piece : List ℕ)
        (used : ℕ) (body : Option (List ℕ)) (new : List ℕ) →
        Splits w16 stream bodies rest → IsFed w16 rest piece used body new →
        Splits w16 (stream ++ take used piece) (bodies ++ option_to_list body) new }
    // So what a new reader gave and holds, after any calls, is the reading of what it used.
    ensures run { (calls : List Call) (rest : List ℕ) → AreFed w16 [] calls rest →
        Splits w16 (stream_of calls) (bodies_of calls) rest }
    // A stream has one reading.
    ensures only { (stream : List ℕ) (bodies others : List (List ℕ)) (rest last : List ℕ) →
        Splits w16 stream bodies rest → Splits w16 stream others last → (bodies ≡ others)
        × (rest ≡ last) }
    // So two readers that used one stream gave the same bodies and hold the same rest.
    ensures cut { (calls others : List Call) (rest last : List ℕ) →
        AreFed w16 [] calls rest → AreFed w16 [] others last → stream_of calls ≡ stream_of others →
        (bodies_of calls ≡ bodies_of others) × (rest ≡ last) }
{}
