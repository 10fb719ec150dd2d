//! The two questions of `/v1/check`, their bodies and the texts of their answers.
pub(crate) mod answering;
pub(crate) mod asking;
pub(crate) mod question;
