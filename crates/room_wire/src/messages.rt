//! HTTP messages: heads, fields and bodies, and how a stream splits into messages.
pub(crate) mod fields;
pub(crate) mod last;
pub(crate) mod laws;
pub(crate) mod message;
pub(crate) mod splitting;
pub(crate) mod taking;
