//! The program `fileroom`: what each command of its command line runs, and how a run ends.
//!
//! The crate `fileroom` is `main` alone; everything that it does stands here, over any reader and
//! any two writers, so that contracts name what is read and written and tests can call it.
#![tactic(auto)]

mod client_laws;
mod fault;
mod halts;
mod host;
mod instance;
mod laws;
mod left;
mod listening;
mod machine;
mod making;
mod names;
mod network;
mod opening;
mod replaying;
mod reporting;
mod rosters;
mod running;
mod selftest;
mod serving;

pub use client_laws::{
    a_client_acts_once_over_files, a_client_is_told_of_its_one_run,
    a_close_cut_off_takes_its_attempts, a_run_cut_off_takes_its_attempts,
    a_run_that_ends_takes_its_attempts, a_run_that_stops_takes_its_attempts,
};
pub use fault::Fault;
pub use halts::{
    a_take_cut_off_leaves_the_room, an_event_cut_off_acts_once, an_event_cut_off_leaves_old_or_new,
};
pub use host::{FileConnection, Host, HostOver};
pub use instance::{a_room_is_asked_again, a_room_is_made};
pub use laws::{
    a_room_outlives_its_runs, a_run_that_ends_keeps_the_room, a_run_that_stops_keeps_the_room,
    an_event_sent_again_to_the_next_run_acts_once, the_next_run_finds_what_this_one_saw,
    what_holds_a_room_is_a_room,
};
pub use left::Left;
pub use listening::{Listener, Server};
pub use machine::Machine;
pub use network::serve_listener;
pub use room_words::{Job, ReportKind, WordsFault, read_words};
pub use running::{run_machine, run_program};
pub use sqlite::{Start, Unknown, Wary};
