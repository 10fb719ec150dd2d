//! A room in the tables of a database.
#![tactic(auto)]

mod commits;
mod deciding;
mod facts;
mod names;
mod new_object;
mod node_facts;
mod open;
mod read_lists;
mod reads;
mod renewing;
mod rows;
mod sql_shelf;
mod tables;
mod upgrade;
mod values;
mod writes;

pub use open::OpenFault;
pub use sql_shelf::SqlShelf;
