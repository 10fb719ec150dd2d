//! A row of the command table, from what `clap` found.
ghost use Rattle.std.specs.Prelude.{◌≡◌, Some, IfOk, IfErr, codes};
ghost use Rattle.clap.specs.Words.{first_of, found_of, rows_of};
ghost use Rattle.room_words.specs.CommandLine.{IsRowOf, IsValue, IsNumber, IsOneOf, command_names, kind_word};
ghost use Rattle.room_words.specs.declared.fault.WordsFault.TheVariants.{Memory};

use crate::fault::WordsFault;
use crate::job::{Job, ReportKind};
use clap::ArgMatches;
use std::alloc::Global;

/// The value of this name. `clap` gives each value that must be there; one that was not there
/// would be told as want of memory.
fn text(alloc: Global, values: &ArgMatches<'_>, name: &str) -> Result<String, WordsFault>
    ensures value { IfOk result (λ text. IsValue (rows_of (found_of values.now)) name.now text) }
    ensures err { IfErr result (λ fault. fault ≡ Memory) }
{
    let Some(text) = values.get_str(name) else {
        return Err(WordsFault::Memory);
    };
    String::from_str(alloc, text).map_err(|_| WordsFault::Memory)
}

fn port(values: &ArgMatches<'_>) -> Result<u16, WordsFault>
    ensures value { IfOk result (λ n. IsNumber (rows_of (found_of values.now)) (codes "PORT") n) }
    ensures err { IfErr result (λ fault. fault ≡ Memory) }
{
    match values.get_one::<u16>("PORT") {
        Some(n) => Ok(n),
        None => Err(WordsFault::Memory),
    }
}

fn count(values: &ArgMatches<'_>) -> Result<u32, WordsFault>
    ensures value { IfOk result (λ n. IsNumber (rows_of (found_of values.now)) (codes "COUNT") n) }
    ensures err { IfErr result (λ fault. fault ≡ Memory) }
{
    match values.get_one::<u32>("COUNT") {
        Some(n) => Ok(n),
        None => Err(WordsFault::Memory),
    }
}

fn kind(values: &ArgMatches<'_>) -> Result<ReportKind, WordsFault>
    ensures value { IfOk result (λ kind.
        first_of (codes "KIND") (rows_of (found_of values.now)) ≡ Some (kind_word kind)) }
    ensures err { IfErr result (λ fault. fault ≡ Memory) }
{
    match values.get_str("KIND") {
        Some("access") => Ok(ReportKind::Access),
        Some("lists") => Ok(ReportKind::Lists),
        _ => Err(WordsFault::Memory),
    }
}

fn init(alloc: Global, values: &ArgMatches<'_>) -> Result<Job, WordsFault>
    ensures row { IfOk result (IsRowOf (codes "init", rows_of (found_of values.now))) }
    ensures err { IfErr result (λ fault. fault ≡ Memory) }
{
    Ok(Job::Init {
        db: text(alloc, values, "DB")?,
        owner: text(alloc, values, "OWNER")?,
        group: text(alloc, values, "GROUP")?,
    })
}

fn replay(alloc: Global, values: &ArgMatches<'_>) -> Result<Job, WordsFault>
    ensures row { IfOk result (IsRowOf (codes "replay", rows_of (found_of values.now))) }
    ensures err { IfErr result (λ fault. fault ≡ Memory) }
{
    Ok(Job::Replay {
        roster: text(alloc, values, "ROSTER")?,
        owner: text(alloc, values, "OWNER")?,
        group: text(alloc, values, "GROUP")?,
    })
}

fn serve(alloc: Global, values: &ArgMatches<'_>) -> Result<Job, WordsFault>
    ensures row { IfOk result (IsRowOf (codes "serve", rows_of (found_of values.now))) }
    ensures err { IfErr result (λ fault. fault ≡ Memory) }
{
    Ok(Job::Serve {
        db: text(alloc, values, "DB")?,
        roster: text(alloc, values, "ROSTER")?,
        port: port(values)?,
        count: count(values)?,
    })
}

fn report(alloc: Global, values: &ArgMatches<'_>) -> Result<Job, WordsFault>
    ensures row { IfOk result (IsRowOf (codes "report", rows_of (found_of values.now))) }
    ensures err { IfErr result (λ fault. fault ≡ Memory) }
{
    Ok(Job::Report {
        db: text(alloc, values, "DB")?,
        roster: text(alloc, values, "ROSTER")?,
        kind: kind(values)?,
    })
}

/// The job of a command with its values.
pub(crate) fn job(alloc: Global, name: &str, values: &ArgMatches<'_>) -> Result<Job, WordsFault>
    requires { IsOneOf name.now command_names }
    ensures row { IfOk result (IsRowOf (name.now, rows_of (found_of values.now))) }
    ensures err { IfErr result (λ fault. fault ≡ Memory) }
{
    match name {
        "check" => Ok(Job::Check),
        "init" => init(alloc, values),
        "replay" => replay(alloc, values),
        "serve" => serve(alloc, values),
        "report" => report(alloc, values),
        "selftest" => Ok(Job::Selftest),
        _ => unreachable!(),
    }
}
