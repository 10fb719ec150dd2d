//! Commands out of bodies.
ghost use Rattle.std.specs.Prelude.{◌≡◌, ◌<◌, IfOk, option_map, option_and_then, codes};
ghost use Rattle.std.specs.Option.{option_zip};
ghost use Rattle.serde_json.specs.View.{view};
ghost use Rattle.base64.specs.Engines.{standard};
ghost use Rattle.base64.specs.GeneralPurpose.{decoded_of};
ghost use Rattle.room_commands.specs.CommandModel.{command_model};
ghost use Rattle.room_commands.specs.Lawful.{AreBytes, IsLawful};
ghost use Rattle.room_commands.specs.CommandModel as C;
ghost use Rattle.room_wire.specs.Forms.Reading.{text_at, number_at};
ghost use Rattle.room_wire.specs.Forms.Commands.{path_from, path_at, list_flags_from, verb_from, of_path, of_bytes};
ghost use Rattle.room_wire.specs.Forms.Commands.{verb_command, command_in, has_parts, keep_at, asked_in, asked_model};
ghost use Rattle.room_wire.specs.Forms.Commands.{command_of_body, bytes_in, ReadsCommand};
ghost use Rattle.room_wire.specs.declared.forms.commands.Verb.TheVariants as V;

use crate::fault::WireFault;
use crate::forms::reading::{
    entries_at, has_count, json_in, mask_at, number_at, principal_at, text_at,
};
use base64::DecodeAllocError;
use base64::engine::general_purpose::STANDARD;
use room_acl::{Entry, ListFlags, Mask, Principal};
use room_commands::Command;
use room_records::Path;
use serde_json::Value;
use std::alloc::{AllocError, Global};

/// A command that has a path alone.
#[derive(Clone, Copy, Debug, PartialEq, Eq)]
enum PathVerb {
    Stat,
    List,
    Mkdir,
    Read,
    Remove,
    GetList,
}

/// A command that has bytes and a path.
#[derive(Clone, Copy, Debug, PartialEq, Eq)]
enum BytesVerb {
    Create,
    Write,
    Append,
}

/// Which command a body asks.
#[derive(Clone, Copy, Debug, PartialEq, Eq)]
enum Verb {
    OfPath(PathVerb),
    OfBytes(BytesVerb),
    Rename,
    SetList,
    Chown,
    Access,
}

fn path_from(alloc: Global, text: &str) -> Result<Option<Path>, AllocError>
    ensures { IfOk result (λ found. found ≡ path_from text.now) }
{
    Path::read(alloc, text)
}

/// A path among the members.
fn path_at(alloc: Global, value: &Value, name: &str) -> Result<Option<Path>, AllocError>
    ensures { IfOk result (λ found. found ≡ path_at name.now (view value.now)) }
{
    match text_at(value, name) {
        Some(text) => path_from(alloc, text),
        None => Ok(None),
    }
}

/// The bytes of standard base64 with padding (RFC 4648, section 4).
fn bytes_from(alloc: Global, text: &str) -> Result<Option<Vec<u8>>, AllocError>
    ensures { IfOk result (λ found. option_map (λ v. v.items) found ≡ decoded_of standard text.now) }
{
    match STANDARD.decode(alloc, text.as_bytes()) {
        Ok(bytes) => Ok(Some(bytes)),
        Err(DecodeAllocError::OutOfMemory) => Err(AllocError),
        Err(DecodeAllocError::DecodeError(_)) => Ok(None),
    }
}

/// Bytes among the members.
fn bytes_at(alloc: Global, value: &Value, name: &str) -> Result<Option<Vec<u8>>, AllocError>
    ensures { IfOk result (λ found.
        option_map (λ v. v.items) found ≡ option_and_then (decoded_of standard) (text_at name.now (view value.now))) }
{
    match text_at(value, name) {
        Some(text) => bytes_from(alloc, text),
        None => Ok(None),
    }
}

fn list_flags_from(number: u64) -> Option<ListFlags>
    ensures { result ≡ list_flags_from number }
{
    match u8::try_from(number) {
        Ok(bits) => ListFlags::new(bits),
        Err(_) => None,
    }
}

/// The flags of a whole list among the members.
fn list_flags_at(value: &Value, name: &str) -> Option<ListFlags>
    ensures { result ≡ option_and_then list_flags_from (number_at name.now (view value.now)) }
{
    list_flags_from(number_at(value, name)?)
}

/// The command of a name, capitals included.
fn verb_from(text: &str) -> Option<Verb>
    ensures { result ≡ verb_from text.now }
{
    match text {
        "STAT" => Some(Verb::OfPath(PathVerb::Stat)),
        "LIST" => Some(Verb::OfPath(PathVerb::List)),
        "MKDIR" => Some(Verb::OfPath(PathVerb::Mkdir)),
        "CREATE" => Some(Verb::OfBytes(BytesVerb::Create)),
        "READ" => Some(Verb::OfPath(PathVerb::Read)),
        "WRITE" => Some(Verb::OfBytes(BytesVerb::Write)),
        "APPEND" => Some(Verb::OfBytes(BytesVerb::Append)),
        "REMOVE" => Some(Verb::OfPath(PathVerb::Remove)),
        "RENAME" => Some(Verb::Rename),
        "GETLIST" => Some(Verb::OfPath(PathVerb::GetList)),
        "SETLIST" => Some(Verb::SetList),
        "CHOWN" => Some(Verb::Chown),
        "ACCESS" => Some(Verb::Access),
        _ => None,
    }
}

/// Which command is named among the members.
fn verb_at(value: &Value, name: &str) -> Option<Verb>
    ensures { result ≡ option_and_then verb_from (text_at name.now (view value.now)) }
{
    verb_from(text_at(value, name)?)
}

/// Whether the value is an object of so many members, where `keep` does not count. With each listed member there, it
/// has exactly those, and `keep` or not.
fn has_parts(value: &Value, count: usize) -> bool
    requires { count < 8 }
    ensures { result ≡ has_parts count (view value.now) }
{
    match value.get("keep") {
        Some(_) => has_count(value, count + 1),
        None => has_count(value, count),
    }
}

fn of_path(verb: PathVerb, path: Path) -> Command
    ensures { command_model result ≡ of_path verb path }
{
    match verb {
        PathVerb::Stat => Command::Stat { path },
        PathVerb::List => Command::List { path },
        PathVerb::Mkdir => Command::Mkdir { path },
        PathVerb::Read => Command::Read { path },
        PathVerb::Remove => Command::Remove { path },
        PathVerb::GetList => Command::GetList { path },
    }
}

/// Two members, exactly, and `keep` or not.
fn path_command(alloc: Global, verb: PathVerb, value: &Value) -> Result<Option<Command>, AllocError>
    ensures { IfOk result (λ found.
        option_map command_model found ≡ verb_command (V.OfPath verb) (view value.now)) }
{
    if !has_parts(value, 2) {
        return Ok(None);
    }
    match path_at(alloc, value, "path")? {
        Some(path) => Ok(Some(of_path(verb, path))),
        None => Ok(None),
    }
}

fn of_bytes(verb: BytesVerb, bytes: Vec<u8>, path: Path) -> Command
    ensures { command_model result ≡ of_bytes verb bytes.items path }
{
    match verb {
        BytesVerb::Create => Command::Create { bytes, path },
        BytesVerb::Write => Command::Write { bytes, path },
        BytesVerb::Append => Command::Append { bytes, path },
    }
}

fn bytes_by(verb: BytesVerb, bytes: Option<Vec<u8>>, path: Option<Path>) -> Option<Command>
    ensures { option_map command_model result ≡ option_map (λ (content, path). of_bytes verb content path)
        (option_zip (option_map (λ v. v.items) bytes) path) }
{
    Some(of_bytes(verb, bytes?, path?))
}

/// Three members, exactly, and `keep` or not.
fn bytes_command(
    alloc: Global,
    verb: BytesVerb,
    value: &Value,
) -> Result<Option<Command>, AllocError>
    ensures { IfOk result (λ found.
        option_map command_model found ≡ verb_command (V.OfBytes verb) (view value.now)) }
{
    if !has_parts(value, 3) {
        return Ok(None);
    }
    let bytes = bytes_at(alloc, value, "data")?;
    let path = path_at(alloc, value, "path")?;
    Ok(bytes_by(verb, bytes, path))
}

fn rename_by(path: Option<Path>, to: Option<Path>) -> Option<Command>
    ensures { option_map command_model result ≡ option_map (λ (path, to). C.Rename path to) (option_zip path to) }
{
    Some(Command::Rename {
        path: path?,
        to: to?,
    })
}

/// Three members, exactly, and `keep` or not.
fn rename_command(alloc: Global, value: &Value) -> Result<Option<Command>, AllocError>
    ensures { IfOk result (λ found.
        option_map command_model found ≡ verb_command V.Rename (view value.now)) }
{
    if !has_parts(value, 3) {
        return Ok(None);
    }
    let path = path_at(alloc, value, "path")?;
    let to = path_at(alloc, value, "to")?;
    Ok(rename_by(path, to))
}

fn set_list_by(
    aclflag: Option<ListFlags>,
    entries: Option<Vec<Entry>>,
    path: Option<Path>,
) -> Option<Command>
    ensures { option_map command_model result ≡ option_map (λ (flags, (entries, path)). C.SetList flags entries path)
        (option_zip aclflag (option_zip (option_map (λ v. v.items) entries) path)) }
{
    Some(Command::SetList {
        aclflag: aclflag?,
        entries: entries?,
        path: path?,
    })
}

/// Four members, exactly, and `keep` or not.
fn set_list_command(alloc: Global, value: &Value) -> Result<Option<Command>, AllocError>
    ensures { IfOk result (λ found.
        option_map command_model found ≡ verb_command V.SetList (view value.now)) }
{
    if !has_parts(value, 4) {
        return Ok(None);
    }
    let aclflag = list_flags_at(value, "aclflag");
    let entries = entries_at(alloc, value, "entries")?;
    let path = path_at(alloc, value, "path")?;
    Ok(set_list_by(aclflag, entries, path))
}

fn chown_by(
    group: Option<Principal>,
    owner: Option<Principal>,
    path: Option<Path>,
) -> Option<Command>
    ensures { option_map command_model result ≡ option_map (λ (group, (owner, path)). C.Chown group owner path)
        (option_zip group (option_zip owner path)) }
{
    Some(Command::Chown {
        group: group?,
        owner: owner?,
        path: path?,
    })
}

/// Four members, exactly, and `keep` or not.
fn chown_command(alloc: Global, value: &Value) -> Result<Option<Command>, AllocError>
    ensures { IfOk result (λ found.
        option_map command_model found ≡ verb_command V.Chown (view value.now)) }
{
    if !has_parts(value, 4) {
        return Ok(None);
    }
    let group = principal_at(alloc, value, "group")?;
    let owner = principal_at(alloc, value, "owner")?;
    let path = path_at(alloc, value, "path")?;
    Ok(chown_by(group, owner, path))
}

fn access_by(mask: Option<Mask>, path: Option<Path>) -> Option<Command>
    ensures { option_map command_model result ≡ option_map (λ (mask, path). C.Access mask path) (option_zip mask path) }
{
    Some(Command::Access {
        mask: mask?,
        path: path?,
    })
}

/// Three members, exactly, and `keep` or not.
fn access_command(alloc: Global, value: &Value) -> Result<Option<Command>, AllocError>
    ensures { IfOk result (λ found.
        option_map command_model found ≡ verb_command V.Access (view value.now)) }
{
    if !has_parts(value, 3) {
        return Ok(None);
    }
    let mask = mask_at(value, "mask");
    let path = path_at(alloc, value, "path")?;
    Ok(access_by(mask, path))
}

fn verb_command(alloc: Global, verb: Verb, value: &Value) -> Result<Option<Command>, AllocError>
    ensures { IfOk result (λ found.
        option_map command_model found ≡ verb_command verb (view value.now)) }
{
    match verb {
        Verb::OfPath(verb) => path_command(alloc, verb, value),
        Verb::OfBytes(verb) => bytes_command(alloc, verb, value),
        Verb::Rename => rename_command(alloc, value),
        Verb::SetList => set_list_command(alloc, value),
        Verb::Chown => chown_command(alloc, value),
        Verb::Access => access_command(alloc, value),
    }
}

fn command_in(alloc: Global, value: &Value) -> Result<Option<Command>, AllocError>
    ensures { IfOk result (λ found.
        option_map command_model found ≡ command_in (view value.now)) }
{
    match verb_at(value, "cmd") {
        Some(verb) => verb_command(alloc, verb, value),
        None => Ok(None),
    }
}

/// Whether the reply is kept, as the member `keep` says: it is where that is absent, and a value that is neither true
/// nor false says nothing.
fn keep_at(value: &Value) -> Option<bool>
    ensures { result ≡ keep_at (view value.now) }
{
    match value.get("keep") {
        Some(found) => found.as_bool(),
        None => Some(true),
    }
}

fn asked_in(alloc: Global, value: &Value) -> Result<Option<(Command, bool)>, AllocError>
    ensures { IfOk result (λ found. option_map asked_model found ≡ asked_in (view value.now)) }
{
    let Some(keep) = keep_at(value) else {
        return Ok(None);
    };
    match command_in(alloc, value)? {
        Some(command) => Ok(Some((command, keep))),
        None => Ok(None),
    }
}

/// The command of a body, if it asks one, and whether its reply is kept.
fn command_of_body(alloc: Global, body: &[u8]) -> Result<Option<(Command, bool)>, AllocError>
    ensures { IfOk result (λ found. option_map asked_model found ≡ command_of_body body.now) }
{
    match json_in(alloc, body)? {
        Some(value) => asked_in(alloc, &value),
        None => Ok(None),
    }
}

/// What a byte is below, as contracts see it.
pub(crate) fn bytes_fit(bytes: &[u8])
    ensures { AreBytes bytes.now }
{
    let _ = bytes.len();
}

/// The bytes of a command are lawful.
fn bytes_of_fit(command: &Command)
    ensures { AreBytes (bytes_in (command_model command.now)) }
{
    match command {
        Command::Create { bytes, .. }
        | Command::Write { bytes, .. }
        | Command::Append { bytes, .. } => bytes_fit(bytes),
        Command::Stat { .. }
        | Command::List { .. }
        | Command::Mkdir { .. }
        | Command::Read { .. }
        | Command::Remove { .. }
        | Command::Rename { .. }
        | Command::GetList { .. }
        | Command::SetList { .. }
        | Command::Chown { .. }
        | Command::Access { .. } => {}
    }
}

/// The command that the body of a slot request asks, and whether its reply is to be kept: one JSON object with the
/// member `cmd` and exactly the members of that command, in any order, and with `keep` or not (our own rule). `keep`
/// is true or false, and true where it is absent; it is no part of the command. The command is lawful. A member that
/// stands twice is as `serde_json` reads it: the last one counts.
///
/// # Errors
///
/// `BadRequest` exactly where the body asks no command or `keep` has another value, `Memory` where memory was refused,
/// and no other.
pub fn read_command(alloc: Global, body: &[u8]) -> Result<(Command, bool), WireFault>
    ensures value { ReadsCommand (command_of_body body.now) result }
    ensures lawful { IfOk result (λ asked. IsLawful (command_model asked.0)) }
{
    match command_of_body(alloc, body)? {
        Some((command, keep)) => {
            bytes_of_fit(&command);
            Ok((command, keep))
        }
        None => Err(WireFault::BadRequest),
    }
}
