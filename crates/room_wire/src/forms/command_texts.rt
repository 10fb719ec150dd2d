//! Commands as text: compact JSON, with members in byte order of their names.
ghost use Rattle.std.specs.Prelude.{◌≡◌, [], ◌∷◌, true, Some, IfOk, codes};
ghost use Rattle.std.specs.List.{AllByRecursion};
ghost use Rattle.room_acl.specs.Bits.{IsMask, IsListFlags};
ghost use Rattle.room_acl.specs.Entries.{IsEntry};
ghost use Rattle.room_acl.specs.Principals.{IsPrincipal};
ghost use Rattle.room_records.specs.Names.{IsPath};
ghost use Rattle.serde_json.specs.Data.{array, string};
ghost use Rattle.serde_json.specs.Written.{compact_text};
ghost use Rattle.room_commands.specs.CommandModel.{command_model};
ghost use Rattle.room_commands.specs.Lawful.{AreBytes, IsLawful};
ghost use Rattle.room_wire.specs.Forms.Commands.{command_of_body};
ghost use Rattle.room_wire.specs.Forms.Texts.{num, obj, cmd, at, command_text};
ghost use Rattle.room_wire.specs.Forms.Texts as T;

use crate::forms::letters::append_letters;
use crate::forms::writing::{
    SHORT_MEMBERS, begun, ended, entries_member, number_member, reserved, size_of_entries,
    text_member, with_quoted,
};
use room_acl::{Entry, ListFlags, Mask, Principal};
use room_commands::Command;
use room_records::Path;
use std::alloc::{AllocError, Global};

/// A command that has a path alone.
fn path_command(alloc: Global, name: &str, path: &Path) -> Result<Vec<u8>, AllocError>
    ensures value { IfOk result (λ text. text.items ≡ compact_text (obj (cmd name.now ∷ at path.now ∷ []))) }
    ensures lawful { IsPath path.now }
{
    let text = path.text(alloc)?;
    let mut out = begun(alloc, text.len().saturating_add(SHORT_MEMBERS))?;
    text_member(&mut out, "cmd", name)?;
    text_member(&mut out, "path", text.as_str())?;
    ended(out)
}

/// A command that has bytes and a path. Bytes are base64 with padding (RFC 4648), of which no letter is escaped.
fn bytes_command(
    alloc: Global,
    name: &str,
    bytes: &[u8],
    path: &Path,
) -> Result<Vec<u8>, AllocError>
    ensures value { IfOk result (λ text. text.items
        ≡ compact_text (obj (cmd name.now ∷ (codes "data", T.bytes bytes.now) ∷ at path.now ∷ []))) }
    ensures lawful { IfOk result (λ _. AreBytes bytes.now × IsPath path.now) }
{
    let place = path.text(alloc)?;
    let mut start = reserved(
        alloc,
        bytes.len(),
        place.len().saturating_add(SHORT_MEMBERS),
    )?;
    start.extend_from_slice(b"{\"cmd\":")?;
    let mut text = with_quoted(start, name)?;
    text.extend_from_slice(b",\"data\":\"")?;
    append_letters(&mut text, bytes)?;
    text.extend_from_slice(b"\",\"path\":")?;
    let mut whole = with_quoted(text, place.as_str())?;
    whole.extend_from_slice(b"}")?;
    Ok(whole)
}

fn rename_command(alloc: Global, path: &Path, to: &Path) -> Result<Vec<u8>, AllocError>
    ensures value { IfOk result (λ text. text.items
        ≡ compact_text (obj (cmd (codes "RENAME") ∷ at path.now ∷ (codes "to", T.path to.now) ∷ []))) }
    ensures lawful { IfOk result (λ _. IsPath path.now × IsPath to.now) }
{
    let from_text = path.text(alloc)?;
    let to_text = to.text(alloc)?;
    let mut out = begun(
        alloc,
        from_text
            .len()
            .saturating_add(to_text.len())
            .saturating_add(SHORT_MEMBERS),
    )?;
    text_member(&mut out, "cmd", "RENAME")?;
    text_member(&mut out, "path", from_text.as_str())?;
    text_member(&mut out, "to", to_text.as_str())?;
    ended(out)
}

fn chown_command(
    alloc: Global,
    group: &Principal,
    owner: &Principal,
    path: &Path,
) -> Result<Vec<u8>, AllocError>
    ensures lawful { IfOk result (λ _. IsPrincipal group.now × IsPrincipal owner.now × IsPath path.now) }
    ensures value { IfOk result (λ text. text.items
        ≡ compact_text (obj (cmd (codes "CHOWN") ∷ (codes "group", string group.now)
        ∷ (codes "owner", string owner.now) ∷ at path.now ∷ []))) }
{
    let text = path.text(alloc)?;
    let mut out = begun(alloc, text.len().saturating_add(SHORT_MEMBERS))?;
    text_member(&mut out, "cmd", "CHOWN")?;
    text_member(&mut out, "group", group.text())?;
    text_member(&mut out, "owner", owner.text())?;
    text_member(&mut out, "path", text.as_str())?;
    ended(out)
}

fn access_command(alloc: Global, mask: Mask, path: &Path) -> Result<Vec<u8>, AllocError>
    ensures value { IfOk result (λ text. text.items
        ≡ compact_text (obj (cmd (codes "ACCESS") ∷ (codes "mask", num mask) ∷ at path.now ∷ []))) }
    ensures lawful { IfOk result (λ _. IsMask mask × IsPath path.now) }
{
    let text = path.text(alloc)?;
    let mut out = begun(alloc, text.len().saturating_add(SHORT_MEMBERS))?;
    text_member(&mut out, "cmd", "ACCESS")?;
    number_member(&mut out, "mask", u64::from(mask.bits()))?;
    text_member(&mut out, "path", text.as_str())?;
    ended(out)
}

fn set_list_command(
    alloc: Global,
    aclflag: ListFlags,
    entries: &[Entry],
    path: &Path,
) -> Result<Vec<u8>, AllocError>
    ensures lawful { IfOk result (λ _. IsListFlags aclflag × AllByRecursion IsEntry entries.now × IsPath path.now) }
    ensures value { IfOk result (λ text. text.items
        ≡ compact_text (obj ((codes "aclflag", num aclflag) ∷ cmd (codes "SETLIST")
        ∷ (codes "entries", array (T.entries entries.now)) ∷ at path.now ∷ []))) }
{
    let text = path.text(alloc)?;
    let mut out = begun(alloc, size_of_entries(entries.len()))?;
    number_member(&mut out, "aclflag", u64::from(aclflag.bits()))?;
    text_member(&mut out, "cmd", "SETLIST")?;
    entries_member(&mut out, entries)?;
    text_member(&mut out, "path", text.as_str())?;
    ended(out)
}

/// The text of the command, which is lawful.
fn lawful_text(alloc: Global, command: &Command) -> Result<Vec<u8>, AllocError>
    ensures value { IfOk result (λ text. text.items ≡ command_text (command_model command.now)) }
    ensures lawful { IfOk result (λ _. IsLawful (command_model command.now)) }
{
    match command {
        Command::Stat { path } => path_command(alloc, "STAT", path),
        Command::List { path } => path_command(alloc, "LIST", path),
        Command::Mkdir { path } => path_command(alloc, "MKDIR", path),
        Command::Create { bytes, path } => bytes_command(alloc, "CREATE", bytes, path),
        Command::Read { path } => path_command(alloc, "READ", path),
        Command::Write { bytes, path } => bytes_command(alloc, "WRITE", bytes, path),
        Command::Append { bytes, path } => bytes_command(alloc, "APPEND", bytes, path),
        Command::Remove { path } => path_command(alloc, "REMOVE", path),
        Command::Rename { path, to } => rename_command(alloc, path, to),
        Command::GetList { path } => path_command(alloc, "GETLIST", path),
        Command::SetList {
            aclflag,
            entries,
            path,
        } => set_list_command(alloc, *aclflag, entries, path),
        Command::Chown { group, owner, path } => chown_command(alloc, group, owner, path),
        Command::Access { mask, path } => access_command(alloc, *mask, path),
    }
}

/// The command as it is kept and compared, which is lawful. Its text is a body that asks the same command.
///
/// # Errors
///
/// Only where memory was refused.
pub fn command_text(alloc: Global, command: &Command) -> Result<Vec<u8>, AllocError>
    ensures value { IfOk result (λ text. text.items ≡ command_text (command_model command.now)) }
    ensures lawful { IfOk result (λ _. IsLawful (command_model command.now)) }
    ensures reads_back { IfOk result (λ text. command_of_body text.items ≡ Some (command_model command.now, true)) }
{
    lawful_text(alloc, command)
}
