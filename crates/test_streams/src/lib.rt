//! What only the program can show: its runs over streams, connections that wait, and a room in files that is asked
//! again.
#![tactic(auto)]

#[cfg(test)]
mod instance;
#[cfg(test)]
mod listening;
#[cfg(test)]
mod program;
