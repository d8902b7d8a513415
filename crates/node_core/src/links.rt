//! The kept links together.
ghost use Rattle.std.specs.Prelude.{◌≡◌, [], ◌&&◌, cond, nat_eq, true, false, map, position, is_some, OnOk, OnErr, IfOk, ◌<◌, length, slice_index_or};
ghost use Rattle.std.specs.List.{list_any, filter, flat_map};
ghost use Rattle.std.specs.Option.{option_map, option_map_or, option_to_list};
ghost use Rattle.dist_types.specs.Listing.{same};
ghost use Rattle.node_core.specs.Links.{KeptLink, AreInOrder, up_peer, dialled_peer, dial_to, is_shown, with_prepared, unroomed, committed, prepared_for, link_place, without_number};
ghost use Rattle.node_core.specs.Links.{broken_off, is_any_in};
ghost use Rattle.node_core.specs.Telling.{said_in, CanBeSaid, IsSpelled, MayBeSaid};
ghost use Rattle.node_core.specs.Gone.{without_ended};

use crate::frames::frames_of;
use crate::link::Link;
use dist_types::{NodeName, OutOfMemory, Scope, TryClone};
use link_frames::Message;
use policy_audit::OutFrame;
use std::alloc::Global;

/// The most links that are kept.
pub const MAX_LINKS: usize = 64;

/// The place of the link of this number.
pub fn place_of(links: &[Link], number: u32) -> Option<usize>
    requires { AreInOrder links.now }
    ensures { result ≡ link_place number links.now }
{
    links
        .binary_search_by(|link| link.number().cmp(&number))
        .ok()
}

/// The place of the link that is up with this peer.
pub fn place_of_up(links: &[Link], peer: &NodeName) -> Option<usize>
    ensures { result ≡ position (λ x. option_map_or (λ n. same n peer.now) (up_peer x.state) false)
        links.now }
{
    links.iter().position(|link| link.is_up_with(peer))
}

/// Whether an own dial to this peer is unfinished.
pub fn is_dialling(links: &[Link], peer: &NodeName) -> bool
    ensures { result ≡ list_any (λ x. option_map_or (λ n. same n peer.now) (dialled_peer x.state)
        false) links.now }
{
    links.iter().any(|link| link.is_dial_to(peer))
}

/// The own dial to this peer.
pub fn dial_to<'a>(links: &'a [Link], peer: &NodeName) -> Option<&'a Link>
    ensures { option_map (λ x. x.now) result ≡ dial_to peer.now links.now }
{
    links.iter().find(|link| link.is_dial_to(peer))
}

/// Whether the link of this number is up.
pub fn is_up(links: &[Link], number: u32) -> bool
    ensures { result ≡ list_any (λ x. nat_eq x.number number && is_some (up_peer x.state))
        links.now }
{
    links
        .iter()
        .any(|link| link.number() == number && link.up_peer().is_some())
}

/// The peers that are up.
pub fn up_peers(alloc: Global, links: &[Link]) -> Result<Vec<NodeName>, OutOfMemory>
    ensures { IfOk result (λ names. names.items
        ≡ flat_map (λ x. option_to_list (up_peer x.state)) links.now) }
{
    let mut peers = Vec::new(alloc);
    for link in links {
        if let Some(peer) = link.up_peer() {
            peers.push(peer.try_clone(alloc)?)?;
        }
    }
    Ok(peers)
}

/// The numbers of the links that are up and visible.
pub fn shown(alloc: Global, links: &[Link]) -> Result<Vec<u32>, OutOfMemory>
    ensures { IfOk result (λ ns. ns.items
        ≡ map (λ x. x.number) (filter (λ x. is_shown x.state) links.now)) }
{
    let mut numbers = Vec::new(alloc);
    for link in links {
        if link.is_shown() {
            numbers.push(link.number())?;
        }
    }
    Ok(numbers)
}

/// Prepares a message for the links of these numbers, and spells it at most once whole and once in
/// parts. Where memory is wanting, what was prepared before is dropped, too.
pub fn prepare(
    alloc: Global,
    links: &mut Vec<Link>,
    numbers: &[u32],
    message: &Message,
) -> Result<(), OutOfMemory>
    requires { MayBeSaid numbers.now links.old.items message.now }
    ensures ok { OnOk result
        (map unroomed links.new.items
        ≡ map (λ x. unroomed (prepared_for numbers.now (said_in message.now) x)) links.old.items) }
    ensures forgot { OnErr result (map unroomed links.new.items
        ≡ map (λ x. unroomed (with_prepared x [])) links.old.items) }
{
    if numbers.is_empty() {
        return Ok(());
    }
    let Ok(spelled) = spell(alloc, links, numbers, message) else {
        forget(links);
        return Err(OutOfMemory);
    };
    prepare_frames(alloc, links, numbers, &spelled)
}

/// A message as it is spelled for some links.
struct Spelled {
    whole: Vec<OutFrame>,
    parts: Vec<OutFrame>,
}

impl Drop for Spelled {
    fn drop(self) {
        let Spelled { whole: _, parts: _ } = self;
    }
}

impl Spelled {
    /// The parts, or the whole.
    fn frames(&self, parted: bool) -> &[OutFrame]
        ensures { result.now ≡ cond parted self.now.parts.items self.now.whole.items }
    {
        if parted { &self.parts } else { &self.whole }
    }
}

/// Spells a message for the links of these numbers, whole and in parts, each where one takes it so.
fn spell(
    alloc: Global,
    links: &[Link],
    numbers: &[u32],
    message: &Message,
) -> Result<Spelled, OutOfMemory>
    requires { MayBeSaid numbers.now links.now message.now }
    ensures whole { IfOk result
        (λ s. IsSpelled false numbers.now links.now message.now s.whole.items) }
    ensures parts { IfOk result
        (λ s. IsSpelled true numbers.now links.now message.now s.parts.items) }
{
    let whole = spell_in(alloc, links, numbers, message, false)?;
    let parts = spell_in(alloc, links, numbers, message, true)?;
    Ok(Spelled { whole, parts })
}

/// Spells a message in parts, or whole, where one of the links of these numbers takes it so.
fn spell_in(
    alloc: Global,
    links: &[Link],
    numbers: &[u32],
    message: &Message,
    parted: bool,
) -> Result<Vec<OutFrame>, OutOfMemory>
    requires { is_any_in parted numbers.now links.now ≡ true → CanBeSaid parted message.now }
    ensures { IfOk result
        (λ frames. IsSpelled parted numbers.now links.now message.now frames.items) }
{
    if !is_any_in(links, numbers, parted) {
        return Ok(Vec::new(alloc));
    }
    frames_of(alloc, message, parted)
}

/// Whether one of the links of these numbers takes messages in parts, or whole, as asked.
pub fn is_any_in(links: &[Link], numbers: &[u32], parted: bool) -> bool
    ensures { result ≡ is_any_in parted numbers.now links.now }
{
    links.iter().any(|link| link.takes(parted) && numbers.contains(&link.number()))
}

/// Prepares copies of frames for each of these links: of the parts, or of the whole.
fn prepare_frames(
    alloc: Global,
    links: &mut Vec<Link>,
    numbers: &[u32],
    spelled: &Spelled,
) -> Result<(), OutOfMemory>
    ensures ok { OnOk result
        (map unroomed links.new.items
        ≡ map (λ x. unroomed
        (prepared_for numbers.now (λ p. cond p spelled.now.parts.items spelled.now.whole.items) x))
        links.old.items) }
    ensures forgot { OnErr result (map unroomed links.new.items
        ≡ map (λ x. unroomed (with_prepared x [])) links.old.items) }
{
    for place in 0..links.len() {
        if !numbers.contains(&links[place].number()) {
            continue;
        }
        let parted = links[place].takes_parts();
        let prepared = links[place].prepare(alloc, spelled.frames(parted));
        if prepared.is_err() {
            forget(links);
            return Err(OutOfMemory);
        }
    }
    Ok(())
}

/// The prepared frames of all links wait from now on.
pub fn commit(links: &mut Vec<Link>)
    ensures { links.new.items ≡ map committed links.old.items }
{
    for link in links.iter_mut() {
        link.commit();
    }
}

/// Nothing is kept of messages of this scope.
pub fn break_off(links: &mut Vec<Link>, scope: &Scope)
    ensures { links.new.items ≡ map (broken_off scope.now) links.old.items }
{
    for link in links.iter_mut() {
        link.break_off(scope);
    }
}

/// The prepared frames of all links are dropped.
pub fn forget(links: &mut Vec<Link>)
    ensures { map unroomed links.new.items
        ≡ map (λ x. unroomed (with_prepared x [])) links.old.items }
{
    for link in links.iter_mut() {
        link.forget();
    }
}

/// The prepared frames of all links are dropped where something failed.
pub fn or_forget<T, F>(links: &mut Vec<Link>, done: Result<T, F>) -> Result<T, F>
    ensures result { result ≡ done }
    ensures same { OnOk result (links.new ≡ links.old) }
    ensures forgot { OnErr result
        (map unroomed links.new.items ≡ map (λ x. unroomed (with_prepared x [])) links.old.items) }
{
    if done.is_err() {
        forget(links);
    }
    done
}

/// The link of this number is gone.
pub fn remove(links: &mut Vec<Link>, number: u32)
    ensures { links.new.items ≡ without_number number links.old.items }
{
    links.retain(|link| link.number() != number);
}

/// The link at a place is gone if it has ended.
pub fn drop_ended(links: &mut Vec<Link>, place: usize)
    requires { place < length links.old.items }
    ensures { (d : KeptLink) → links.new.items
        ≡ without_ended (slice_index_or links.old.items place d) links.old.items }
{
    let number = links[place].number();
    if links[place].is_ended() {
        remove(links, number);
    }
}
