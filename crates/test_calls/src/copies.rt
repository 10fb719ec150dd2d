//! Values that hold a list or a text, and their copies; and the trial slot, of which no program has one.
use crate::checks::{holds, same};
use room_commands::{Command, Reply};
use room_slots::{Trial, TrialAnswer, run_trial};
use std::alloc::Global;
use std::process::Abort;
use std::test::Fail;
use test_support::{named, path_of, roster};

/// The copy of a command that writes `text` to `/a/b`.
fn copied_command(alloc: Global) -> Result<Command, Fail> {
    let path = path_of(alloc, "/a/b")?;
    let bytes = b"text".to_vec(alloc)?;
    Ok(Command::Write { bytes, path }.clone()?)
}

/// The bytes of a command that writes, and the text of its path.
fn parts(alloc: Global, command: &Command) -> Result<Option<(&[u8], String)>, Fail> {
    match command {
        Command::Write { bytes, path } => Ok(Some((bytes.as_slice(), path.text(alloc)?))),
        _ => Ok(None),
    }
}

fn expect_written(rt: &impl Abort, alloc: Global, command: &Command) -> Result<(), Fail> {
    let (bytes, path) = parts(alloc, command)?.ok_or("another command")?;
    same(rt, bytes, b"text", "the bytes");
    same(rt, path.as_str(), "/a/b", "the path");
    Ok(())
}

/// The bytes of a reply that has some.
fn bytes_of(reply: &Reply) -> Option<&[u8]> {
    match reply {
        Reply::Bytes(bytes) => Some(bytes.as_slice()),
        _ => None,
    }
}

#[test]
fn copies_are_equal(rt: HostRuntime) -> Result<(), Fail> {
    let alloc = rt.alloc();
    expect_written(&rt, alloc, &copied_command(alloc)?)?;
    let copy = Reply::Bytes(b"text".to_vec(alloc)?).clone()?;
    same(&rt, bytes_of(&copy), Some(b"text".as_slice()), "the reply");
    Ok(())
}

#[test]
fn a_copied_roster_grows_alone(rt: HostRuntime) -> Result<(), Fail> {
    let users = roster(rt.alloc())?;
    let mut copy = users.clone()?;
    let zoe = named(rt.alloc(), "zoe")?;
    holds(&rt, copy.add(zoe, Vec::new(rt.alloc()))?, "one more");
    same(&rt, (copy.len(), users.len()), (4, 3), "the users then");
    Ok(())
}

/// Whether an answer's copy is equal.
fn is_copied(answer: &TrialAnswer) -> Result<bool, Fail> {
    Ok(answer.clone()? == *answer)
}

/// The first piece, sent again to the copy of a trial, gets its answer, and is in its document once.
fn expect_copy(rt: &impl Abort, trial: &Trial, answer: &TrialAnswer) -> Result<(), Fail> {
    let mut copy = trial.clone()?;
    holds(rt, copy.append(1, b"a")? == *answer, "a retry");
    same(rt, copy.doc.as_slice(), b"a", "the copy's document");
    Ok(())
}

#[test]
fn a_copied_trial_knows_a_retry(rt: HostRuntime) -> Result<(), Fail> {
    let mut trial = Trial::fresh(rt.alloc());
    let answer = trial.append(1, b"a")?;
    holds(&rt, is_copied(&answer)?, "a copied answer");
    expect_copy(&rt, &trial, &answer)
}

/// Pieces as they arrive, each with its number: the second is a retry, the third a false retry, the fourth misordered.
static FIVE: [(u32, &[u8]); 5] = [(1, b"a"), (1, b"a"), (1, b"b"), (3, b"b"), (2, b"b")];

#[test]
fn run_of_five_pieces(rt: HostRuntime) -> Result<(), Fail> {
    let mut pieces = Vec::new(rt.alloc());
    for (seq, bytes) in &FIVE {
        pieces.push((*seq, bytes.to_vec(rt.alloc())?))?;
    }
    let doc = run_trial(rt.alloc(), &pieces)?;
    same(&rt, doc.as_slice(), b"ab", "the document");
    Ok(())
}
