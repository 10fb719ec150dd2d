//! What messages ask: routes, the caller, events and questions.
pub(crate) mod ask;
pub(crate) mod caller;
pub(crate) mod check_ask;
pub(crate) mod decoding;
pub(crate) mod event;
pub(crate) mod laws;
pub(crate) mod route;
pub(crate) mod routed;
pub(crate) mod routing;
pub(crate) mod target_parts;
