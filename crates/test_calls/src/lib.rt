//! Public calls of the crates below that no other test and no program makes, the texts of commands, and streams that
//! fail.
#![tactic(auto)]

#[cfg(test)]
mod answers;
#[cfg(test)]
mod checks;
#[cfg(test)]
mod copies;
#[cfg(test)]
mod failures;
