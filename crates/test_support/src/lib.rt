//! What several crates of tests share: names, rosters, entries and rows, rooms in memory, whether lists are whole,
//! facts that must hold, a question with its answers, a reader that fails, and a writer that is bounded or fails.
#![tactic(auto)]

mod entries;
mod facts;
mod lists;
mod messages;
mod names;
mod rooms;
mod rows;
mod streams;

pub use entries::{entry, handed_down};
pub use facts::must;
pub use lists::other_list;
pub use messages::{ANSWER, BAD_HTTP, QUESTION};
pub use names::{SID, file_name, named, path_of, roster, session_name, subject};
pub use rooms::in_memory;
pub use rows::{commit, node_in_root, session_row, slot_row};
pub use streams::{BoundedWriter, Full, Pieces};
