//! A shelf around a shelf, which remembers rows; and rows that are remembered, for whoever remembers others.
#![tactic(auto)]

mod cached;
mod decisions;
mod known;
mod list;
mod rows;
mod slots;

pub use cached::CachedShelf;
pub use rows::Rows;
