//! Rooms in tables, over memory and over disks that fail.
#![tactic(auto)]

#[cfg(test)]
mod disks;
#[cfg(test)]
mod stores;
#[cfg(test)]
mod tables;
