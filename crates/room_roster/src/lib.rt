//! Rosters read from TOML text.
#![tactic(auto)]

mod fault;
mod groups;
mod reading;
mod users;

pub use fault::RosterFault;
pub use reading::read_roster;
