//! What is known of a link with a node of Erlang/OTP.
ghost use Rattle.std.specs.Prelude.{◌≡◌, ◌≤◌, ◌<◌, [], vec_len, length, get_or, IfSome, IsNone};
ghost use Rattle.std.specs.Prelude.{All, None};
ghost use Rattle.otp_edge.specs.Drops.{times_for};
ghost use Rattle.otp_edge.specs.Opens.{IsOther, IsOtherProcess};
ghost use Rattle.otp_edge.specs.declared.drops.Dropped.{Dropped};
ghost use Rattle.otp_edge.specs.declared.open_scope.OpenScope.{OpenScope};

use crate::drops::Drops;
use crate::open_scope::OpenScope;
use crate::scope_edge::Run;
use dist_types::Pid;
use link_frames::Parts;
use std::alloc::Global;

/// The most scopes that run here.
pub const MAX_SCOPES: usize = 64;

/// What is known of a link with a node of Erlang/OTP, behind its handshake.
#[derive(Debug, Drop)]
pub struct Edge {
    pub own: Run,
    pub peer: Run,
    /// Whether the node takes and gives messages in parts (version 2), so longer ones too.
    pub in_parts: bool,
    /// The scopes that run here.
    pub scopes: Vec<OpenScope>,
    /// How many processes of the peer were watched.
    pub watches: u32,
    /// Parts of a message that the node says.
    pub parts: Parts,
    pub drops: Drops,
    ghost few_scopes: { vec_len scopes ≤ 64 },
}

impl Edge {
    /// The edge of a link whose handshake is done. Nothing is known yet.
    pub fn new(alloc: Global, own: Run, peer: Run, in_parts: bool) -> Edge
        ensures scopes { result.scopes.items ≡ [] }
        ensures own { result.own ≡ own }
        ensures peer { result.peer ≡ peer }
        ensures in_parts { result.in_parts ≡ in_parts }
        ensures parts { result.parts ≡ None }
        ensures drops { (reason : Dropped) → times_for reason result.drops ≡ 0 }
    {
        Edge {
            own,
            peer,
            in_parts,
            scopes: Vec::new(alloc),
            watches: 1,
            parts: Parts::new(),
            drops: Drops::new(),
        }
    }

    /// The scope of that name.
    pub fn place_of(&self, name: &[u8]) -> Option<usize>
        ensures found { IfSome result (λ place. (place < length self.now.scopes.items) ×
            ((d : OpenScope) → (get_or self.now.scopes.items place d).scope ≡ name.now)) }
        ensures none { IsNone result → All (IsOther name.now) self.now.scopes.items }
    {
        for (place, open) in self.scopes.iter().enumerate() {
            if open.is_named(name) {
                return Some(place);
            }
        }
        None
    }

    /// The scope that the peer knows by this process.
    pub fn place_of_own(&self, own: &Pid) -> Option<usize>
        ensures found { IfSome result (λ place. (place < length self.now.scopes.items) ×
            ((d : OpenScope) → (get_or self.now.scopes.items place d).own ≡ own.now)) }
        ensures none { IsNone result → All (IsOtherProcess own.now) self.now.scopes.items }
    {
        for (place, open) in self.scopes.iter().enumerate() {
            if open.own == *own {
                return Some(place);
            }
        }
        None
    }
}
