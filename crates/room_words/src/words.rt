//! The command line.
ghost use Rattle.std.specs.Prelude.{◌≡◌, [], ◌∷◌, IfOk, codes};
ghost use Rattle.clap.specs.Words.{FailsBy, fault_of, kind_of, subcommand_of, subcommand_rows_of};
ghost use Rattle.room_words.specs.CommandLine.{program_command, IsReadAs, ReadsJob, TellsKind, texts_of};

use crate::commands::{command_table, kind_parser};
use crate::fault::WordsFault;
use crate::job::Job;
use crate::rows::job;
use clap::builder::ValueParser;
use clap::error::ErrorKind;
use clap::{ArgMatches, Error};
use std::alloc::Global;

/// What `clap` finds in the words.
fn parse<'a>(
    alloc: Global,
    kind: ValueParser<'a>,
    words: &'a [String],
) -> Result<ArgMatches<'a>, Error>
    ensures found { IfOk result
        (λ m. subcommand_rows_of m ≡ subcommand_of (program_command kind.entry) (texts_of words.entry.now)) }
    ensures fails { FailsBy (fault_of (program_command kind.entry) (texts_of words.entry.now)) result }
{
    command_table(alloc, kind)?.try_get_matches_from(words)
}

/// Why `clap` gave no matches, with its text.
fn words_fault(alloc: Global, error: &Error) -> WordsFault
    ensures { TellsKind (kind_of error.now) result }
{
    let kind = error.kind();
    if kind == ErrorKind::OutOfMemory {
        return WordsFault::Memory;
    }
    match error.to_string(alloc) {
        Err(_) => WordsFault::Memory,
        Ok(text) if kind == ErrorKind::DisplayHelp || kind == ErrorKind::DisplayVersion => {
            WordsFault::Help(text)
        }
        Ok(text) => WordsFault::Usage(text),
    }
}

/// Reads the words behind the program's name. Help is asked for by `-h` or `--help`, the version by `-V` or
/// `--version`. A value that begins with `-` is to be written behind `--`.
pub fn read_words(alloc: Global, words: &[String]) -> Result<Job, WordsFault>
    ensures reads { ReadsJob (texts_of words.now) result }

    // The command line in plain words.
    ensures check { texts_of words.now ≡ codes "check" ∷ [] → IsReadAs Job.Check result }
    ensures selftest { texts_of words.now ≡ codes "selftest" ∷ [] → IsReadAs Job.Selftest result }
{
    match parse(alloc, kind_parser(), words) {
        Ok(matches) => match matches.subcommand() {
            Some((name, values)) => job(alloc, name, values),
            None => unreachable!(),
        },
        Err(error) => Err(words_fault(alloc, &error)),
    }
}
