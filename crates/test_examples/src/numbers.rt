//! The numbers that were last sent.
use crate::fault::Fault;
use std::alloc::{AllocError, Global};

/// The number that was last sent in a slot of a session.
#[derive(Drop)]
struct Last {
    session: String,
    slot: String,
    number: u32,
}

impl Last {
    fn new(alloc: Global, session: &str, slot: &str, number: u32) -> Result<Last, AllocError> {
        let session = String::from_str(alloc, session)?;
        let slot = String::from_str(alloc, slot)?;
        Ok(Last {
            session,
            slot,
            number,
        })
    }

    fn copy(&self) -> Result<Last, AllocError> {
        let session = self.session.clone()?;
        let slot = self.slot.clone()?;
        Ok(Last {
            session,
            slot,
            number: self.number,
        })
    }

    fn is_of(&self, session: &str, slot: &str) -> bool {
        self.session.as_str() == session && self.slot.as_str() == slot
    }
}

/// The numbers that were last sent, each in its slot of a session.
#[derive(Drop)]
pub struct Numbers {
    alloc: Global,
    all: Vec<Last>,
}

impl Numbers {
    pub fn new(alloc: Global) -> Numbers {
        Numbers {
            alloc,
            all: Vec::new(alloc),
        }
    }

    pub fn copy(&self) -> Result<Numbers, Fault> {
        let mut all = Vec::new(self.alloc);
        for last in &self.all {
            all.push(last.copy()?)?;
        }
        Ok(Numbers {
            alloc: self.alloc,
            all,
        })
    }

    /// One more than the number that was last sent, 1 at first.
    pub fn next(&self, session: &str, slot: &str) -> u32 {
        for last in &self.all {
            if last.is_of(session, slot) {
                return last.number.wrapping_add(1);
            }
        }
        1
    }

    /// Keeps a number that is sent.
    pub fn keep(&mut self, session: &str, slot: &str, number: u32) -> Result<(), Fault> {
        self.all.retain(|last| !last.is_of(session, slot));
        self.all
            .push(Last::new(self.alloc, session, slot, number)?)?;
        Ok(())
    }
}
