//! Files in memory, what they hold, and work over a database in them.
use crate::stores::{Held, file_of};
use sqlite::{Alter, Connection, FileStore, Options};
use sqlite_disk::{Crash, Disk, Files, Fuse, Memory, Rot};
use std::alloc::Global;
use std::test::Fail;

/// A disk over a file in memory.
pub trait Kept: Disk {
    /// What the file in memory holds.
    fn file_bytes(&self) -> &[u8];
}

impl Kept for Memory {
    fn file_bytes(&self) -> &[u8] {
        self.bytes()
    }
}

impl Kept for Fuse<Memory> {
    fn file_bytes(&self) -> &[u8] {
        self.inner().bytes()
    }
}

impl Kept for Rot<Memory> {
    fn file_bytes(&self) -> &[u8] {
        self.inner().bytes()
    }
}

/// A disk over a file in memory that fails at one place.
pub trait Failing: Kept {
    fn over(file: Memory, place: u64) -> Self;
}

/// It fails from the call of this number on.
impl Failing for Fuse<Memory> {
    fn over(file: Memory, place: u64) -> Fuse<Memory> {
        Fuse::new(file, place)
    }
}

/// The byte at this place is damaged.
impl Failing for Rot<Memory> {
    fn over(file: Memory, place: u64) -> Rot<Memory> {
        Rot::new(file, place as usize)
    }
}

/// Whether a disk stopped: it fails the next call too, or may be used no more.
pub fn has_stopped<D: Disk>(disk: &mut D) -> bool {
    !disk.may_be_used() || disk.len().is_err()
}

pub fn held_by<D: Kept>(alloc: Global, files: &Files<D>) -> Result<Held, Fail> {
    Ok(Held {
        log: files.log.file_bytes().to_vec(alloc)?,
        db: files.db.file_bytes().to_vec(alloc)?,
    })
}

/// What the files hold after a crash that loses all that was not flushed.
pub fn flushed<D: Kept + Crash + Drop>(alloc: Global, files: Files<D>) -> Result<Held, Fail> {
    let mut files = files;
    files.log.crash();
    files.db.crash();
    held_by(alloc, &files)
}

/// What is done with a database, over any store.
pub trait Work {
    type Found: Drop;

    /// What is found, and the store that is left.
    fn run<S: Alter + Drop>(
        self,
        alloc: Global,
        conn: Connection<S>,
    ) -> Result<(Self::Found, S), Fail>;
}

/// Does work over a store in files. No other call of what is for any store is made over this one: each that makes one
/// is proved in half a minute, for it shows anew that the files are a store.
fn done<D: Disk + Drop, W: Work>(
    alloc: Global,
    conn: Connection<FileStore<D>>,
    work: W,
) -> Result<(W::Found, FileStore<D>), Fail> {
    work.run(alloc, conn)
}

/// The database in files, or what is left of them.
fn opened<D: Disk + Drop>(
    alloc: Global,
    files: Files<D>,
    options: Options,
) -> Result<Connection<FileStore<D>>, Files<D>> {
    if !files.may_be_used() {
        return Err(files);
    }
    match Connection::open_files(alloc, files, options) {
        Ok(conn) => Ok(conn),
        Err((_, left)) => Err(left.into_files()),
    }
}

/// What work finds in a database, where it is opened, and the files with no IO behind it.
pub fn found_over<D: Disk + Drop, W: Work + Drop>(
    alloc: Global,
    files: Files<D>,
    options: Options,
    work: W,
) -> Result<(Option<W::Found>, Files<D>), Fail> {
    match opened(alloc, files, options) {
        Ok(conn) => {
            let (found, store) = done(alloc, conn, work)?;
            Ok((Some(found), store.close()))
        },
        Err(files) => Ok((None, files)),
    }
}

/// Does work over a database in sound files with these bytes.
fn done_again<W: Work + Drop>(
    alloc: Global,
    held: &Held,
    work: W,
) -> Result<(W::Found, FileStore<Memory>), Fail> {
    let log = file_of(alloc, held.log.as_slice())?;
    let db = file_of(alloc, held.db.as_slice())?;
    match opened(alloc, Files { log, db }, Options::new(2)) {
        Ok(conn) => done(alloc, conn, work),
        Err(_) => Err(Fail::new("not opened again")),
    }
}

/// What work finds in a database in sound files with these bytes.
pub fn found_in<W: Work + Drop>(alloc: Global, held: &Held, work: W) -> Result<W::Found, Fail> {
    let (found, _) = done_again(alloc, held, work)?;
    Ok(found)
}

/// Files that were never written.
pub fn empty(alloc: Global) -> Held {
    Held {
        log: Vec::new(alloc),
        db: Vec::new(alloc),
    }
}

/// What new files hold after work: it is in the log, or copied into the database file.
pub fn left_by<W: Work + Drop>(alloc: Global, work: W, in_log: bool) -> Result<Held, Fail> {
    let (_, store) = done_again(alloc, &empty(alloc), work)?;
    let mut store = store;
    if !in_log {
        store.checkpoint()?;
    }
    held_by(alloc, &store.close())
}

/// Options under which a large change goes to the log before it is committed, and the log is often copied into the
/// database file.
pub fn spilling() -> Options {
    let mut options = Options::new(1);
    options.spill_pages = 4;
    options.checkpoint_frames = 12;
    options
}

/// The same where little stays in memory, so that requests read the disk.
pub fn small() -> Options {
    let mut options = spilling();
    options.cache_pages = 1;
    options.spill_pages = 2;
    options
}
