//! The buffers of serving.

use crate::serving::input::Input;
use std::alloc::{AllocError, Global};

/// The bytes of the output buffer, which holds a reply with a document of 65,536 bytes in base64, and its head.
const ANSWER_BYTES: usize = 90_112;

/// The buffers of serving, made once for any number of streams: no message makes them grow.
#[derive(Drop)]
pub struct Buffers {
    /// The bytes that have come and are not used yet.
    pub(crate) input: Input,
    /// Where an answer is put together.
    pub(crate) output: Vec<u8>,
}

impl Buffers {
    pub fn new(alloc: Global) -> Result<Buffers, AllocError> {
        let input = Input::new(alloc)?;
        let output = Vec::with_capacity(alloc, ANSWER_BYTES)?;
        Ok(Buffers { input, output })
    }
}
