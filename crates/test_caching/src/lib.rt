//! A shelf that remembers rows, beside one that does not.
#![tactic(auto)]

#[cfg(test)]
mod caching;
