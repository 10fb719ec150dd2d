//! Worked examples of the tables of a room, over memory: a commit that the tables refuse, and how many rows a decision
//! fetches.
mod deciding;
mod refusing;
