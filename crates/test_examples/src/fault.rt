//! Why a line is not read, or a scene is not played.
use std::alloc::{AllocError, AllocFailed};

/// Why a line is not read, or a scene is not played.
#[derive(Clone, Copy)]
pub enum Fault {
    Memory,
    Because(&'static str),
}

impl Fault {
    pub fn text(self) -> &'static str {
        match self {
            Fault::Memory => "out of memory",
            Fault::Because(text) => text,
        }
    }
}

impl From<AllocError> for Fault {
    fn from(_error: AllocError) -> Fault {
        Fault::Memory
    }
}

impl<T: Drop> From<AllocFailed<T>> for Fault {
    fn from(_error: AllocFailed<T>) -> Fault {
        Fault::Memory
    }
}
