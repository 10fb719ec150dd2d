//! What messages are answered: codes, statuses, and the bytes of an answer.
pub(crate) mod answer;
pub(crate) mod code;
pub(crate) mod sending;
