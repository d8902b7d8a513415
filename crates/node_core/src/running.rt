//! The scopes that run.
ghost use Rattle.std.specs.Prelude.{◌≡◌, find};
ghost use Rattle.std.specs.Option.{option_map};
ghost use Rattle.dist_types.specs.Listing.{same};
ghost use Rattle.node_core.specs.ScopeFacts.{AreAscending, scope_place};

use dist_types::Scope;
use scope_core::ScopeTable;

/// The most rows that the processes of one node may have in a scope: as many as a message of
/// version 1 has.
pub const ROWS_OF_VERSION_1: u32 = 4096;

/// The same where messages come in parts.
pub const ROWS_OF_VERSION_2: u32 = 65536;

/// A scope, with its rows and the links that it is shared over.
#[derive(Drop)]
pub struct Running {
    pub scope: Scope,
    pub table: ScopeTable,
    /// The links whose peer has sent its rows, by number.
    pub heard: Vec<u32>,
    /// The links whose peer was sent the own rows, by number.
    pub told: Vec<u32>,
}

/// The scope among these.
pub fn find<'a>(scopes: &'a [Running], scope: &Scope) -> Option<&'a Running>
    requires { AreAscending scopes.now }
    ensures { option_map (λ r. r.now) result ≡ find (λ r. same r.scope scope.now) scopes.now }
{
    match place_of(scopes, scope) {
        Some(place) => Some(&scopes[place]),
        None => None,
    }
}

/// The place of the scope among these.
pub fn place_of(scopes: &[Running], scope: &Scope) -> Option<usize>
    requires { AreAscending scopes.now }
    ensures { result ≡ scope_place scope.now scopes.now }
{
    scopes
        .binary_search_by(|running| running.scope.cmp(scope))
        .ok()
}

/// Lets go of the listings that the scopes keep.
pub fn let_go(scopes: &mut Vec<Running>)
    ensures { scopes.new.items ≡ scopes.old.items }
{
    for running in scopes.iter_mut() {
        running.table.let_go();
    }
}
