//! What is shown of a node to who looks on: its metrics, its status as JSON, its health, and a
//! page.
#![tactic(auto)]

mod health;
mod metrics;
mod page;
mod sheet;
mod shown;
mod status;
mod tables;
mod view;

pub use health::Health;
pub use metrics::put_metrics;
pub use page::put_page;
pub use sheet::Sheet;
pub use shown::Shown;
pub use status::status_json;
pub use view::{DialView, GroupView, LinkView, NodeView, ReasonView, RuleView, ScopeView};
