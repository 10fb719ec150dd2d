//! What the program is asked to do.

/// Which report is asked for.
#[derive(Clone, Copy, Debug, PartialEq, Eq)]
pub enum ReportKind {
    /// What each user may do with each object.
    Access,
    /// The whole list of each object.
    Lists,
}

/// A row of the program's command table, with its values as they were written.
#[derive(Clone, Debug, Drop)]
pub enum Job {
    /// Answers questions about access lists, from standard input to standard output.
    Check,
    /// Makes a room in a file.
    Init {
        db: String,
        owner: String,
        group: String,
    },
    /// Answers requests to a room in memory, from standard input to standard output.
    Replay {
        roster: String,
        owner: String,
        group: String,
    },
    /// Answers requests to the room in a file, over `count` connections to `port` of 127.0.0.1.
    Serve {
        db: String,
        roster: String,
        port: u16,
        count: u32,
    },
    /// Writes a report of the room in a file.
    Report {
        db: String,
        roster: String,
        kind: ReportKind,
    },
    /// Tries a room in memory over a socket to itself.
    Selftest,
}
