//! Events and answers of a node, the audit of both, and the written policy that says what each
//! event is answered.
#![tactic(auto)]

mod audit;
mod change;
mod changing;
mod entry;
mod event;
mod later;
mod laws;
mod opening;
mod out_frame;
mod page;
mod past;
mod place;
mod reply;
mod rule;

pub use audit::{Audit, AuditFault};
pub use change::{Change, Changes};
pub use changing::Changing;
pub use entry::{Entry, Verdict};
pub use event::{Event, NodeNames};
pub use later::Later;
pub use laws::{
    admitted, equal_values, few_own, goes_on, kept_parts, left_alone, lists_ascend, one_link_up,
    own_counts, parts_are_said, refusal_leaves, rows_after, rows_after_messages, slow_links_end,
    up_by_events,
};
pub use opening::Opening;
pub use out_frame::{OutFrame, OutFrames};
pub use page::{PAGE_SIZE, Page};
pub use place::Place;
pub use reply::{Contents, GroupPids, Groups, Members, Reply, Update, Updates};
pub use rule::Rule;
