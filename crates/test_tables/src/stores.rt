//! What the tests over tables share: rooms in tables, one of version 1, files in memory, and databases as text.
mod files;
mod rooms;
mod rows;
mod version_1;

pub use files::{Held, file_of};
pub use rooms::{adopt, in_tables, init, made, taken};
pub use rows::shown;
pub use version_1::make_version_1;
