//! What a command changes in the rows, and what it answers: `plan`.
#![tactic(auto)]

mod changing;
mod depth;
mod finding;
mod loaded;
mod making;
mod moving;
mod planning;
mod reaching;
mod reading;
mod refusal;
mod removing;
mod renewing;
mod setlist;
mod upwards;
mod walking;

pub use finding::node_at;
pub use planning::{Outcome, plan};
pub use renewing::renew;
pub use room_commands::{Command, RefusalCode, Reply};
pub use upwards::list_upwards;
