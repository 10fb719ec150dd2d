//! Why words name no job.
use thiserror::Error as ThisError;

/// Why words are no row of the command table.
#[derive(Clone, Debug, Drop, ThisError)]
pub enum WordsFault {
    /// The words are not as the table has them; the text says what is wrong.
    #[error("{0}")]
    Usage(String),
    /// The words ask for help, or for the version; the text is what they ask for.
    #[error("{0}")]
    Help(String),
    /// Want of memory.
    #[error("no memory")]
    Memory,
}
