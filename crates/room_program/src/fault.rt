//! The faults that end a run with status 1.
ghost use Rattle.std.specs.Prelude.{◌≡◌};
ghost use Rattle.room_program.specs.Faults.{done_of, done_of_report, fault_line};

use room_report::ReportFault;
use room_roster::RosterFault;
use room_wire::Why;
use std::alloc::AllocError;

/// A fault that ends a run with status 1, told by one line on standard error.
#[derive(Clone, Copy, Debug, PartialEq, Eq)]
pub enum Fault {
    /// OWNER or GROUP is no principal.
    BadName,
    /// The roster's file can't be read as UTF-8 text.
    CannotReadRoster,
    /// The text is no roster, or one over the limits.
    BadRoster,
    /// A room is to be made where a table of a room is.
    RoomExists,
    /// The file is no room of version 1 or 2, or is not there.
    NotARoom,
    /// Another fault of the store.
    StoreFailed,
    /// Want of memory.
    Memory,
    /// Listening or accepting failed.
    NetworkFailed,
    /// The input held bytes that no message can begin with, or ended within a message.
    BadMessage,
    /// The input failed.
    ReadFailed,
    /// The output failed, or took no more bytes.
    WriteFailed,
    /// An answer differed, or the socket failed.
    SelftestFailed,
}

impl Fault {
    /// The fault's line, with its line feed.
    pub fn line(self) -> &'static str
        ensures { result.now ≡ fault_line self }
    {
        match self {
            Fault::BadName => "fileroom: bad name\n",
            Fault::CannotReadRoster => "fileroom: cannot read roster\n",
            Fault::BadRoster => "fileroom: bad roster\n",
            Fault::RoomExists => "fileroom: room exists\n",
            Fault::NotARoom => "fileroom: not a room\n",
            Fault::StoreFailed => "fileroom: store failed\n",
            Fault::Memory => "fileroom: no memory\n",
            Fault::NetworkFailed => "fileroom: network failed\n",
            Fault::BadMessage => "fileroom: bad message\n",
            Fault::ReadFailed => "fileroom: read failed\n",
            Fault::WriteFailed => "fileroom: write failed\n",
            Fault::SelftestFailed => "fileroom: selftest failed\n",
        }
    }
}

impl From<AllocError> for Fault {
    ghost use Rattle.std.specs.Prelude.{◌≡◌};
    ghost use Rattle.room_program.specs.declared.fault.Fault.TheVariants.{Memory};

    ghost from_gives = { λ _ fault. fault ≡ Memory };

    fn from(_error: AllocError) -> Fault {
        Fault::Memory
    }
}

impl From<RosterFault> for Fault {
    ghost use Rattle.std.specs.Prelude.{◌≡◌};
    ghost use Rattle.room_program.specs.Faults.{roster_fault};

    ghost from_gives = { λ error fault. fault ≡ roster_fault error };

    fn from(error: RosterFault) -> Fault {
        match error {
            RosterFault::Memory => Fault::Memory,
            RosterFault::Bad => Fault::BadRoster,
        }
    }
}

/// How a run ends where serving ended so.
pub(crate) fn done_of(why: Why) -> Result<(), Fault>
    ensures { result ≡ done_of why }
{
    match why {
        Why::Closed => Ok(()),
        Why::BadMessage => Err(Fault::BadMessage),
        Why::ReadFailed => Err(Fault::ReadFailed),
        Why::WriteFailed => Err(Fault::WriteFailed),
        Why::Memory => Err(Fault::Memory),
    }
}

/// How a run ends where a report ended so.
pub(crate) fn done_of_report(written: Result<(), ReportFault>) -> Result<(), Fault>
    ensures { result ≡ done_of_report written }
{
    match written {
        Ok(()) => Ok(()),
        Err(ReportFault::Memory) => Err(Fault::Memory),
        Err(ReportFault::Store) => Err(Fault::StoreFailed),
        Err(ReportFault::WriteFailed) => Err(Fault::WriteFailed),
    }
}
