//! Names and rows of a room, and the shelf that keeps them.
#![tactic(auto)]

mod change;
mod fresh;
mod limits;
mod mem;
mod names;
mod node;
mod order;
mod roster;
mod session;
mod shelf;
mod table;
mod trip;
mod writing;

pub use change::Change;
pub use fresh::{fresh_entries, fresh_root};
pub use limits::{
    MAX_CHILDREN, MAX_DOCUMENT, MAX_GROUPS, MAX_NAME_BYTES, MAX_NAMES, MAX_OBJECTS, MAX_SLOTS,
    MAX_USERS,
};
pub use mem::MemShelf;
pub use names::{FileName, Path, Sid, SlotCount};
pub use node::{Node, ROOT, copy_names};
pub use roster::Roster;
pub use session::{SessionRow, SlotRow};
pub use shelf::{Shelf, ShelfFault};
pub use trip::TripShelf;
pub use writing::write_whole;
