//! Serving the messages of a stream.
pub(crate) mod buffers;
pub(crate) mod check_service;
pub(crate) mod input;
pub(crate) mod laws;
pub(crate) mod service;
pub(crate) mod stop;
pub(crate) mod stream;
