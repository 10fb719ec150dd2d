//! Slots of a session: what a slot keeps, and what a request to it is.
//!
//! A request that a client sends again after its answer was lost must not be run again.
//! So each request has a number, and a slot keeps the last one with its reply: the number
//! and the request tell whether it is new, a repeat, a false retry or misordered
//! (RFC 8881, sections 2.10.6 and 18.46). `Trial` is a document to which pieces are
//! appended through such a slot, each of them once.
#![tactic(auto)]

mod trial;
mod verdict;

pub use trial::{Trial, TrialAnswer, run_trial};
pub use verdict::{Kept, Verdict, classify, is_next};
