//! The command table as `clap` knows it.
ghost use Rattle.std.specs.Prelude.{◌≡◌, [], ◌∷◌, false, IfOk, codes, pos};
ghost use Rattle.clap.specs.Words.{app_of, new_app, rule_of};
ghost use Rattle.room_words.specs.CommandLine.{program_command, command, value_rule, parsed_rule};
ghost use Rattle.room_words.specs.CommandLine.{bare_program, IsCommand, IsKindParser};

use clap::builder::ValueParser;
use clap::{Arg, Command};
use std::alloc::{AllocError, Global};

/// What `--version` tells; docs/CHANGES.md says what each version changed.
const VERSION: &str = "0.3.0";

const AFTER_HELP: &str = "Put -- before a value that begins with -.

Exit status: 0 success or help; 1 error (one line on standard error); 2 wrong usage.";

const AFTER_HELP_OF_CHECK: &str = "It waits for a message on standard input. For example:

  fileroom check <examples/deny_stands_first.http";

static KINDS: [&str; 2] = ["access", "lists"];

/// What KIND may be.
pub(crate) fn kind_parser() -> ValueParser<'static>
    ensures { IsKindParser result }
{
    ValueParser::Names(KINDS.as_slice())
}

/// A value that must be there, with its line of help.
fn value<'a>(alloc: Global, name: &'a str, help: &'a str) -> Arg<'a>
    ensures rule { rule_of result ≡ value_rule name.entry.now }
    ensures local { result.global ≡ false }
{
    Arg::new(alloc, name).required(true).help(help)
}

fn database<'a>(alloc: Global) -> Arg<'a>
    ensures rule { rule_of result ≡ value_rule (codes "DB") }
    ensures local { result.global ≡ false }
{
    value(
        alloc,
        "DB",
        "The room's file; its log lies beside it, as DB-wal",
    )
}

fn roster<'a>(alloc: Global) -> Arg<'a>
    ensures rule { rule_of result ≡ value_rule (codes "ROSTER") }
    ensures local { result.global ≡ false }
{
    value(
        alloc,
        "ROSTER",
        "The users and their groups: a TOML file with one table, users",
    )
}

fn owner<'a>(alloc: Global) -> Arg<'a>
    ensures rule { rule_of result ≡ value_rule (codes "OWNER") }
    ensures local { result.global ≡ false }
{
    value(
        alloc,
        "OWNER",
        "The user who owns the root: 1 to 32 letters, digits, '.', '_' or '-'",
    )
}

fn group<'a>(alloc: Global) -> Arg<'a>
    ensures rule { rule_of result ≡ value_rule (codes "GROUP") }
    ensures local { result.global ≡ false }
{
    value(
        alloc,
        "GROUP",
        "The root's group: 1 to 32 letters, digits, '.', '_' or '-'",
    )
}

/// A value that must be there, and be as the parser says.
fn parsed<'a>(alloc: Global, name: &'a str, help: &'a str, parser: ValueParser<'a>) -> Arg<'a>
    ensures rule { rule_of result ≡ parsed_rule name.entry.now parser.entry }
    ensures local { result.global ≡ false }
{
    value(alloc, name, help).value_parser(parser)
}

fn init<'a>(alloc: Global) -> Result<Command<'a>, AllocError>
    ensures { IfOk result (IsCommand (command (codes "init")
        (value_rule (codes "DB") ∷ value_rule (codes "OWNER") ∷ value_rule (codes "GROUP") ∷ []))) }
{
    Command::new(alloc, "init")
        .about("Makes a room in the file DB")
        .arg(database(alloc))?
        .arg(owner(alloc))?
        .arg(group(alloc))
}

fn replay<'a>(alloc: Global) -> Result<Command<'a>, AllocError>
    ensures { IfOk result (IsCommand (command (codes "replay")
        (value_rule (codes "ROSTER") ∷ value_rule (codes "OWNER") ∷ value_rule (codes "GROUP") ∷ []))) }
{
    Command::new(alloc, "replay")
        .about("Answers requests to a fresh room in memory, from standard input to standard output")
        .arg(roster(alloc))?
        .arg(owner(alloc))?
        .arg(group(alloc))
}

fn serve<'a>(alloc: Global) -> Result<Command<'a>, AllocError>
    ensures { IfOk result (IsCommand (command (codes "serve") (value_rule (codes "DB") ∷ value_rule (codes "ROSTER")
        ∷ parsed_rule (codes "PORT") (ValueParser.Signed (pos 1) (pos 65535))
        ∷ parsed_rule (codes "COUNT") (ValueParser.Signed (pos 1) (pos 4294967295)) ∷ []))) }
{
    let port = parsed(
        alloc,
        "PORT",
        "The port of 127.0.0.1 to listen on, 1 to 65535",
        ValueParser::Signed(1, 65535),
    );
    let count = parsed(
        alloc,
        "COUNT",
        "How many connections are served before the program ends, 1 to 4294967295",
        ValueParser::Signed(1, 4294967295),
    );
    Command::new(alloc, "serve")
        .about("Serves the room in the file DB on 127.0.0.1, COUNT connections one after another")
        .arg(database(alloc))?
        .arg(roster(alloc))?
        .arg(port)?
        .arg(count)
}

fn report<'a>(alloc: Global, kind: ValueParser<'a>) -> Result<Command<'a>, AllocError>
    ensures { IfOk result (IsCommand (command (codes "report")
        (value_rule (codes "DB") ∷ value_rule (codes "ROSTER") ∷ parsed_rule (codes "KIND") kind.entry ∷ []))) }
{
    Command::new(alloc, "report")
        .about("Writes a report of the room in the file DB; KIND is access or lists")
        .arg(database(alloc))?
        .arg(roster(alloc))?
        .arg(parsed(
            alloc,
            "KIND",
            "What each user may do with each object, or the list of each object",
            kind,
        ))
}

fn check<'a>(alloc: Global) -> Command<'a>
    ensures { IsCommand (new_app (codes "check")) result }
{
    Command::new(alloc, "check")
        .about("Answers questions about access lists, from standard input to standard output")
        .after_help(AFTER_HELP_OF_CHECK)
}

fn selftest<'a>(alloc: Global) -> Command<'a>
    ensures { IsCommand (new_app (codes "selftest")) result }
{
    Command::new(alloc, "selftest").about("Tries a fresh room in memory over a socket to itself")
}

/// The program without its commands.
fn program<'a>(alloc: Global) -> Command<'a>
    ensures { IsCommand bare_program result }
{
    Command::new(alloc, "fileroom")
        .version(VERSION)
        .about("A shared room of folders and documents with inherited access lists")
        .after_help(AFTER_HELP)
        .no_binary_name(true)
        .subcommand_required(true)
        .disable_help_subcommand(true)
}

/// The program and its commands.
fn commands<'a>(alloc: Global, kind: ValueParser<'a>) -> Result<Command<'a>, AllocError>
    ensures { IfOk result (λ c. app_of c ≡ program_command kind.entry) }
{
    program(alloc)
        .subcommand(check(alloc))?
        .subcommand(init(alloc)?)?
        .subcommand(replay(alloc)?)?
        .subcommand(serve(alloc)?)?
        .subcommand(report(alloc, kind)?)?
        .subcommand(selftest(alloc))
}

/// The command table as `clap` knows it. Usage texts name the program whatever it was started as.
pub(crate) fn command_table<'a>(
    alloc: Global,
    kind: ValueParser<'a>,
) -> Result<Command<'a>, AllocError>
    ensures { IfOk result (λ c. app_of c ≡ program_command kind.entry) }
{
    commands(alloc, kind)?.bin_name("fileroom")
}
