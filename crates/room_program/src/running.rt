//! A run of the program, from its words to its exit status.
ghost use Rattle.std.specs.Prelude.{◌≡◌, ◌⊎◌, ℕ, List};
ghost use Rattle.std.specs.List.{AllByRecursion};
ghost use Rattle.sqlite.specs.WalFiles.{image_at};
ghost use Rattle.sqlite.specs.Recovery.{Image};
ghost use Rattle.room_words.specs.CommandLine.{texts_of};
ghost use Rattle.room_program.specs.Ends.{InitEnds};
ghost use Rattle.room_program.specs.Files.{Made, Takes, Unmade};
ghost use Rattle.room_program.specs.Found.{HoldsStill, IsLeftBy, SeesSums};
ghost use Rattle.room_program.specs.Replays.{Replays};
ghost use Rattle.room_program.specs.Restarts.{KeepsRoomOrMore, Rosters};
ghost use Rattle.room_program.specs.Rolls.{GaveOnce};
ghost use Rattle.room_program.specs.Rooms.{Reports, ServesRoom};
ghost use Rattle.room_program.specs.Runs.{Checks, Ends, EndsWith, RefusesWords, Runs, RunsJob, WritesText};
ghost use Rattle.room_program.specs.Runs.{Tries, means, streams};

use crate::fault::{Fault, done_of};
use crate::host::{FileConnection, Host};
use crate::left::Left;
use crate::listening::Listener;
use crate::machine::Machine;
use crate::making::init;
use crate::replaying::replay;
use crate::reporting::report;
use crate::selftest::selftest;
use crate::serving::serve;
use room_cache::CachedShelf;
use room_records::{Shelf, write_whole};
use room_sql::SqlShelf;
use room_wire::serve_checks;
use room_words::{Job, ReportKind, WordsFault, read_words};
use sqlite::{Alter, Connection, FileFrom, FileStore, Start};
use sqlite_disk::Disk;
use sqlite_trees::store::Store;
use std::alloc::Global;
use std::io::{Read, Write};

/// The job was done.
const DONE: u8 = 0;
/// A fault ended the run.
const FAULT: u8 = 1;
/// The words are no row of the command table.
const USAGE: u8 = 2;

/// The status of a run that ended so, after the line of its fault, if any, went to `errors`.
fn end_with<E: Write>(done: Result<(), Fault>, errors: &mut E) -> u8
    ensures { EndsWith done (E.contents errors.old) (E.contents errors.new) result }
{
    match done {
        Ok(()) => DONE,
        Err(fault) => {
            // With standard error gone there is nobody left to tell.
            let _ = write_whole(errors, fault.line().as_bytes());
            FAULT
        }
    }
}

/// Answers questions from the input to the output.
fn run_check<R: Read, W: Write, E: Write>(
    alloc: Global,
    input: &mut R,
    output: &mut W,
    errors: &mut E,
) -> u8
    ensures { Checks
        (streams (R.remaining input.old) (W.contents output.old) (E.contents errors.old))
        (streams (R.remaining input.new) (W.contents output.new) (E.contents errors.new)) result }
{
    let end = serve_checks(alloc, input, output);
    end_with(done_of(end.why), errors)
}

/// Writes a text to the output.
fn show<W: Write, E: Write>(text: &str, output: &mut W, errors: &mut E) -> u8
    ensures { WritesText text.now
        (streams None (W.contents output.old) (E.contents errors.old))
        (streams None (W.contents output.new) (E.contents errors.new)) result }
{
    if write_whole(output, text.as_bytes()) {
        end_with(Ok(()), errors)
    } else {
        end_with(Err(Fault::WriteFailed), errors)
    }
}

/// Tries a room in memory over a socket.
fn run_selftest<C, M: Machine<C> + Listener, W: Write, E: Write>(
    alloc: Global,
    machine: &mut M,
    output: &mut W,
    errors: &mut E,
) -> u8
    ensures { Tries M.does M.accepts M.fails machine.old machine.new
        (streams None (W.contents output.old) (E.contents errors.old))
        (streams None (W.contents output.new) (E.contents errors.new)) result }
{
    match selftest(alloc, machine) {
        Ok(()) => show("selftest ok\n", output, errors),
        Err(fault) => end_with(Err(fault), errors),
    }
}

/// Makes a room in a file.
fn run_init<S: Alter + Drop, M: Machine<Connection<S>>, E: Write>(
    alloc: Global,
    machine: &mut M,
    db: &str,
    owner: &str,
    group: &str,
    errors: &mut E,
) -> u8
    ensures { Ends (InitEnds M.does (Made S.Store owner.now group.now)
        (Unmade S.Store owner.now group.now) db.now owner.now group.now machine.old machine.new)
        (E.contents errors.old) (E.contents errors.new) result }
{
    let done = init(alloc, machine, db, owner, group);
    end_with(done, errors)
}

/// Writes a report of the room in a file.
fn run_report<S: Alter + Drop, M: Machine<Connection<S>>, W: Write, E: Write>(
    alloc: Global,
    machine: &mut M,
    db: &str,
    roster: &str,
    kind: ReportKind,
    output: &mut W,
    errors: &mut E,
) -> u8
    ensures { Ends (Reports M.does (λ opened taken. Takes S.Store opened taken) (λ shelf. shelf.0.conn)
        ⟦<CachedShelf<SqlShelf<S>> as Shelf>⟧.view db.now roster.now kind
        machine.old machine.new (W.contents output.old) (W.contents output.new))
        (E.contents errors.old) (E.contents errors.new) result }
{
    let done = report(alloc, machine, db, roster, kind, output);
    end_with(done, errors)
}

/// Serves a fresh room from the input to the output.
fn run_replay<C, M: Machine<C>, R: Read, W: Write, E: Write>(
    alloc: Global,
    machine: &mut M,
    roster: &str,
    owner: &str,
    group: &str,
    input: &mut R,
    output: &mut W,
    errors: &mut E,
) -> u8
    ensures { Ends (Replays M.does roster.now owner.now group.now machine.old machine.new
        (R.remaining input.old) (R.remaining input.new) (W.contents output.old) (W.contents output.new))
        (E.contents errors.old) (E.contents errors.new) result }
{
    let done = replay(alloc, machine, roster, owner, group, input, output);
    end_with(done, errors)
}

/// Serves the room in a file.
fn run_serve<S: Alter + Drop, M: Machine<Connection<S>> + Listener, E: Write>(
    alloc: Global,
    machine: &mut M,
    db: &str,
    roster: &str,
    port: u16,
    count: u32,
    errors: &mut E,
) -> u8
    ensures { Ends (ServesRoom M.does M.accepts M.fails
        (λ opened taken. Takes S.Store opened taken) (λ shelf. shelf.0.conn)
        ⟦<CachedShelf<SqlShelf<S>> as Shelf>⟧.view db.now roster.now port count machine.old machine.new)
        (E.contents errors.old) (E.contents errors.new) result }
{
    let done = serve(alloc, machine, db, roster, port, count);
    end_with(done, errors)
}

/// Runs a job.
fn run_job<S: Alter + Drop, M: Machine<Connection<S>> + Listener, R: Read, W: Write, E: Write>(
    alloc: Global,
    machine: &mut M,
    job: &Job,
    input: &mut R,
    output: &mut W,
    errors: &mut E,
) -> u8
    ensures { RunsJob (means M.does M.accepts M.fails (λ opened taken. Takes S.Store opened taken)
        (λ shelf. shelf.0.conn) (Made S.Store) (Unmade S.Store) ⟦<CachedShelf<SqlShelf<S>> as Shelf>⟧.view)
        machine.old machine.new job.now
        (streams (R.remaining input.old) (W.contents output.old) (E.contents errors.old))
        (streams (R.remaining input.new) (W.contents output.new) (E.contents errors.new)) result }
{
    match job {
        Job::Check => run_check(alloc, input, output, errors),
        Job::Init { db, owner, group } => run_init(
            alloc,
            machine,
            db.as_str(),
            owner.as_str(),
            group.as_str(),
            errors,
        ),
        Job::Report { db, roster, kind } => {
            run_report(
                alloc,
                machine,
                db.as_str(),
                roster.as_str(),
                *kind,
                output,
                errors,
            )
        }
        Job::Replay {
            roster,
            owner,
            group,
        } => {
            run_replay(
                alloc,
                machine,
                roster.as_str(),
                owner.as_str(),
                group.as_str(),
                input,
                output,
                errors,
            )
        }
        Job::Serve {
            db,
            roster,
            port,
            count,
        } => {
            run_serve(
                alloc,
                machine,
                db.as_str(),
                roster.as_str(),
                *port,
                *count,
                errors,
            )
        }
        Job::Selftest => run_selftest(alloc, machine, output, errors),
    }
}

/// Tells why the words name no job: help on the output, all else on `errors`.
fn refuse_words<W: Write, E: Write>(fault: &WordsFault, output: &mut W, errors: &mut E) -> u8
    ensures { RefusesWords fault.now
        (streams None (W.contents output.old) (E.contents errors.old))
        (streams None (W.contents output.new) (E.contents errors.new)) result }
{
    match fault {
        WordsFault::Usage(text) => {
            let _ = write_whole(errors, text.as_bytes());
            USAGE
        }
        WordsFault::Help(text) => { show(text.as_str(), output, errors) }
        WordsFault::Memory => end_with(Err(Fault::Memory), errors),
    }
}

/// Runs the program over a machine, as `run_program` does over the system. Its contract says what
/// was asked of the machine, and that the run follows what it answered.
pub fn run_machine<
    S: Alter + Drop,
    M: Machine<Connection<S>> + Listener,
    R: Read,
    W: Write,
    E: Write,
>(
    alloc: Global,
    machine: &mut M,
    words: &[String],
    input: &mut R,
    output: &mut W,
    errors: &mut E,
) -> u8
    ensures { Runs (means M.does M.accepts M.fails (λ opened taken. Takes S.Store opened taken)
        (λ shelf. shelf.0.conn) (Made S.Store) (Unmade S.Store) ⟦<CachedShelf<SqlShelf<S>> as Shelf>⟧.view)
        machine.old machine.new (texts_of words.now)
        (streams (R.remaining input.old) (W.contents output.old) (E.contents errors.old))
        (streams (R.remaining input.new) (W.contents output.new) (E.contents errors.new)) result }
{
    match read_words(alloc, words) {
        Ok(job) => run_job(alloc, machine, &job, input, output, errors),
        Err(fault) => refuse_words(&fault, output, errors),
    }
}

// A step of its own, since the prover can't take that from any store to the files of the system at once.

/// The same where stores are in two files of any disk.
fn run_files<
    D: Disk + Drop,
    M: Machine<Connection<FileStore<D>>> + Listener,
    R: Read,
    W: Write,
    E: Write,
>(
    alloc: Global,
    machine: &mut M,
    words: &[String],
    input: &mut R,
    output: &mut W,
    errors: &mut E,
) -> u8
    ensures { Runs (means M.does M.accepts M.fails
        (λ opened taken. Takes ⟦<FileStore<D> as Store>⟧ opened taken)
        (λ shelf. shelf.0.conn) (Made ⟦<FileStore<D> as Store>⟧) (Unmade ⟦<FileStore<D> as Store>⟧)
        ⟦<CachedShelf<SqlShelf<FileStore<D>>> as Shelf>⟧.view)
        machine.old machine.new (texts_of words.now)
        (streams (R.remaining input.old) (W.contents output.old) (E.contents errors.old))
        (streams (R.remaining input.new) (W.contents output.new) (E.contents errors.new)) result }
{
    run_machine(alloc, machine, words, input, output, errors)
}

/// Runs the program on the words behind its name, and answers its exit status: 0 where the job was
/// done or help was shown, 1 after a fault, whose line goes to `errors`, 2 where the words are no
/// row of the command table. Memory is taken from `alloc`.
///
/// It holds for any `S`, which stands for what the files of the store held as they were opened; `main` passes
/// `Unknown`, which supposes of a write that a crash cuts that each byte is the old or the new one, as `Host` asks.
/// Whatever the words are, and however the run ends, a room that these files held is in them then, with its history; or
/// its history went on by what messages asked, in each connection those of users that the roster's file gave (`files`).
/// What each job does to them follows from
/// what it asks of the host (`a_run_does_so_to_its_files`, `a_run_that_ends_keeps_the_room`).
pub fn run_program<'a, S: Start, R: Read, W: Write, E: Write>(
    alloc: Global,
    host: &mut Host<'a, S>,
    words: &[String],
    input: &mut R,
    output: &mut W,
    errors: &mut E,
) -> u8
    ensures runs { Runs (means ⟦<Host<'static, S> as Machine<FileConnection<S>>>⟧.does
        ⟦<Host<'static, S> as Listener>⟧.accepts ⟦<Host<'static, S> as Listener>⟧.fails
        (λ opened taken. Takes ⟦<FileStore<FileFrom<S>> as Store>⟧ opened taken)
        (λ shelf. shelf.0.conn) (Made ⟦<FileStore<FileFrom<S>> as Store>⟧)
        (Unmade ⟦<FileStore<FileFrom<S>> as Store>⟧)
        ⟦<CachedShelf<SqlShelf<FileStore<FileFrom<S>>>> as Shelf>⟧.view)
        host.old host.new (texts_of words.now)
        (streams (R.remaining input.old) (W.contents output.old) (E.contents errors.old))
        (streams (R.remaining input.new) (W.contents output.new) (E.contents errors.new)) result }
    ensures files { (left : Image) → host.old.left ≡ Left.Nothing → SeesSums (image_at S.Start) host.new.left
        → IsLeftBy (image_at S.Start) host.new.left left → HoldsStill (image_at S.Start) left
        ⊎ ((roster : List ℕ) × (rosters : Rosters)
        × AllByRecursion (GaveOnce ⟦<Host<'static, S> as Machine<FileConnection<S>>>⟧.does roster) rosters
        × KeepsRoomOrMore rosters (image_at S.Start) left) }
{
    run_files(alloc, host, words, input, output, errors)
}
