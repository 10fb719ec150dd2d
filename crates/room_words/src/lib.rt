//! The command line of `fileroom`: its words are read into a job with its options, and nothing is run. A command line
//! that names no job is a fault, with the text that says how it is used.
#![tactic(auto)]

mod commands;
mod fault;
mod job;
mod rows;
mod words;

pub use fault::WordsFault;
pub use job::{Job, ReportKind};
pub use words::read_words;
