//! The answer to a Discover: a Sync of all own rows, and a Discover where the peer isn't heard.
ghost use Rattle.std.specs.Prelude.{◌≡◌, ◌<◌, ◌≤◌, ◌+◌, ◌^◌, List, [], ℕ, cond, false, Some, length, IfOk, OnOk, OnErr};
ghost use Rattle.dist_types.specs.Listing.{max_rows};
ghost use Rattle.scope_core.specs.Table.{count_of, local_total};
ghost use Rattle.link_frames.specs.declared.part.Message2.TheVariants as messages;
ghost use Rattle.policy_audit.specs.declared.event.Event.TheVariants as events;
ghost use Rattle.policy_audit.specs.Hearing.{frame_taken};
ghost use Rattle.node_core.specs.FramesHere.{IsSoundMessage};
ghost use Rattle.node_core.specs.Step.{Call, Answers};
ghost use Rattle.node_core.specs.Links.{with_room};
ghost use Rattle.node_core.specs.MessageRules.{HasBecome, AnswersDiscover, AreSyncFrames, can_be_told, sync_frames};
ghost use Rattle.node_core.specs.ScopeFacts.{is_number, with_number};

use crate::entering::Answered;
use crate::fault::CoreFault;
use crate::frames::{discover_frame, frames_of};
use crate::kept::Kept;
use crate::link::Link;
use crate::linking::{changes_without, cut_link};
use crate::links::remove;
use crate::messaging::Route;
use crate::peer_rows::note;
use crate::running::{ROWS_OF_VERSION_1, Running};
use crate::slow::MAX_WAITING;
use dist_types::{OutOfMemory, Scope, TryClone};
use link_frames::{Message, Rows};
use policy_audit::{OutFrame, Rule};
use std::alloc::Global;

impl Kept {
    /// A Discover for a scope that runs. The link ends where too many frames would wait for it.
    #[tactic(auto, unfolding(crate::specs::Step::Answers))]
    pub fn discovered(&mut self, route: Route, scope: &Scope) -> Result<Answered, CoreFault>
        ghost call: { Call }
        requires { IsSoundMessage call self.old route.place route.at route.number
            (messages.Discover scope.now) }
        ensures { (body : List ℕ)
            → frame_taken call.past.opening route.number call.past.entries body
            ≡ Some (messages.Discover scope.now)
            → Answers call (events.Frame route.number body) self.new result }
    {
        let link = &self.links[route.place];
        let running = &self.scopes[route.at];
        let parted = link.takes_parts();
        if !can_be_told(running, parted) {
            return Err(CoreFault::Refused(Rule::RowsFull));
        }
        let owed = discover_owes(running, route.number, parted);
        if link.frames().len() + owed > MAX_WAITING {
            let changes = changes_without(self.alloc, &self.scopes, &self.links[route.place])?;
            cut_link(&mut self.scopes, &self.links[route.place]);
            remove(&mut self.links, route.number);
            return Ok(Answered::changed(changes));
        }
        let link = &mut self.links[route.place];
        let running = &mut self.scopes[route.at];
        let frames = ready_to_answer(self.alloc, link, running, route.number, scope, parted)?;
        link.answer(frames);
        Ok(Answered::done(self.alloc))
    }
}

/// Whether the own rows go into one message, or into parts.
fn can_be_told(running: &Running, parted: bool) -> bool
    ensures { result ≡ can_be_told running.now.table parted }
{
    parted || running.table.own_total() <= ROWS_OF_VERSION_1 as usize
}

/// How many frames a Discover owes: those of a Sync, and one where the link of this number isn't
/// heard.
fn discover_owes(running: &Running, number: u32, parted: bool) -> usize
    ensures owed { result ≡ sync_frames parted (local_total running.now.table)
        + cond (is_number number running.now.heard.items) 0 1 }
    ensures few { result ≤ 2 ^ 32 }
{
    let sync = sync_frames(running.table.own_total(), parted);
    if running.heard.contains(&number) {
        sync
    } else {
        sync + 1
    }
}

/// How many frames a Sync of so many rows has.
fn sync_frames(rows: usize, parted: bool) -> usize
    requires { rows < 2 ^ 32 }
    ensures frames { result ≡ sync_frames parted rows }
    ensures few { result < 2 ^ 32 }
{
    if parted {
        rows.saturating_sub(1) / ROWS_OF_VERSION_1 as usize + 1
    } else {
        1
    }
}

/// What answers a Discover, with room for it on the link. The link of this number is told from now
/// on.
fn ready_to_answer(
    alloc: Global,
    link: &mut Link,
    running: &mut Running,
    number: u32,
    scope: &Scope,
    parted: bool,
) -> Result<Vec<OutFrame>, OutOfMemory>
    requires idle { link.old.prepared ≡ [] }
    requires few { parted ≡ false → local_total running.old.table ≤ max_rows }
    ensures frames { IfOk result (λ frames. AnswersDiscover running.old parted number scope.now
        frames.items) }
    ensures fits { IfOk result (λ frames. length frames.items ≤ link.new.room) }
    ensures roomy { link.new ≡ with_room link.old link.new.room }
    ensures told { OnOk result (HasBecome running.old running.new (count_of running.old.table)
        running.old.heard.items (with_number number running.old.told.items)) }
    ensures same { OnErr result (HasBecome running.old running.new (count_of running.old.table)
        running.old.heard.items running.old.told.items) }
{
    let frames = answer_to_discover(alloc, running, number, scope, parted)?;
    link.make_room(frames.len())?;
    tell(running, number)?;
    Ok(frames)
}

/// All own rows, and a Discover where the link of this number isn't heard.
#[tactic(auto, using(crate::proofs::Said::heard_alone, crate::proofs::Said::asked_too))]
fn answer_to_discover(
    alloc: Global,
    running: &Running,
    number: u32,
    scope: &Scope,
    parted: bool,
) -> Result<Vec<OutFrame>, OutOfMemory>
    requires { parted ≡ false → local_total running.now.table ≤ max_rows }
    ensures { IfOk result (λ frames. AnswersDiscover running.now parted number scope.now
        frames.items) }
{
    let mut frames = sync_of(alloc, running, scope, parted)?;
    if !running.heard.contains(&number) {
        frames.push(discover_frame(alloc, scope)?)?;
    }
    Ok(frames)
}

/// A Sync of all own rows, in parts or whole.
#[tactic(auto, using(crate::proofs::Said::sync_said))]
fn sync_of(
    alloc: Global,
    running: &Running,
    scope: &Scope,
    parted: bool,
) -> Result<Vec<OutFrame>, OutOfMemory>
    requires { parted ≡ false → local_total running.now.table ≤ max_rows }
    ensures { IfOk result (λ frames. AreSyncFrames running.now scope.now parted frames.items) }
{
    // A table has fewer than 2^32 rows, so that the number of a part fits its field.
    running.table.own_total();
    let rows = Rows::of(running.table.local_rows()?);
    let scope = scope.try_clone(alloc)?;
    let message = Message::Sync(scope, rows);
    let frames = frames_of(alloc, &message, parted);
    drop(message);
    frames
}

/// The peer of this link is told from now on.
fn tell(running: &mut Running, number: u32) -> Result<(), OutOfMemory>
    ensures ok { OnOk result (HasBecome running.old running.new (count_of running.old.table)
        running.old.heard.items (with_number number running.old.told.items)) }
    ensures same { OnErr result (HasBecome running.old running.new (count_of running.old.table)
        running.old.heard.items running.old.told.items) }
{
    running.told.reserve(1)?;
    note(&mut running.told, number);
    Ok(())
}
