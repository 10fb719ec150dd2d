//! Reports of who may do what, and of every list.
#![tactic(auto)]

mod item;
mod lines;
mod reports;
mod sending;
mod walking;

pub use reports::{ReportFault, access_report, list_report};
