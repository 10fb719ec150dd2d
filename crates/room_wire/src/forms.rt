//! JSON forms: commands, replies and entries, and their texts.
pub(crate) mod command_texts;
pub(crate) mod commands;
pub(crate) mod laws;
pub(crate) mod letters;
pub(crate) mod reading;
pub(crate) mod replies;
pub(crate) mod writing;
