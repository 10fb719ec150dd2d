//! The lines of one object, built in one buffer.
ghost use Rattle.std.specs.Prelude.{◌≡◌, ◌<◌, ◌≤◌, ◌++◌, ◌∷◌, [], false, if◌then◌else◌, IfOk, OnOk};
ghost use Rattle.std.specs.Fmt.{digit_glyph};
ghost use Rattle.std.specs.List.{flat_map};
ghost use Rattle.room_acl.specs.Access.{allowed_mask};
ghost use Rattle.room_report.specs.Lines.{hex, in_places, kind_letter, mask_line};
ghost use Rattle.room_report.specs.Lines.{entry_line, head_line};
ghost use Rattle.room_report.specs.Walk.{item_lines, shown_path};

use crate::item::Item;
use room_acl::{Entry, Kind, Subject, allowed_bits};
use std::alloc::{AllocError, Global};

/// Bytes of the longest name of a user or of a group.
const LONGEST_NAME: usize = 32;

/// Which report is written.
#[derive(Debug, Drop)]
pub(crate) enum Report {
    /// What each of these users is allowed.
    Access(Vec<Subject>),
    /// Each list.
    Lists,
}

/// The lines of an object.
pub(crate) fn item_lines(alloc: Global, report: &Report, item: &Item) -> Result<Vec<u8>, AllocError>
    ensures { IfOk result (λ lines. lines.items ≡ item_lines report.now item.now) }
{
    match report {
        Report::Access(users) => access_lines(alloc, users, item),
        Report::Lists => list_lines(alloc, item),
    }
}

/// A line for each user.
fn access_lines(alloc: Global, users: &[Subject], item: &Item) -> Result<Vec<u8>, AllocError>
    ensures { IfOk result (λ lines. lines.items
        ≡ flat_map (λ user. mask_line (allowed_mask item.now.list.items user item.now.standing)
        user.name (shown_path item.now.names.items)) users.now) }
{
    let mut lines = Vec::new(alloc);
    for user in users {
        let mask = allowed_bits(&item.list, user, &item.standing);
        push_mask_line(
            &mut lines,
            mask.bits(),
            user.name.text().as_bytes(),
            &item.names,
        )?;
    }
    Ok(lines)
}

/// The object's own line, and a line for each entry of its list.
fn list_lines(alloc: Global, item: &Item) -> Result<Vec<u8>, AllocError>
    ensures { IfOk result (λ lines. lines.items
        ≡ head_line item.now.kind item.now.aclflag item.now.standing.owner
        item.now.standing.group (shown_path item.now.names.items)
        ++ flat_map entry_line item.now.list.items) }
{
    let mut lines = Vec::new(alloc);
    push_head_line(&mut lines, item)?;
    for entry in &item.list {
        push_entry_line(&mut lines, entry)?;
    }
    Ok(lines)
}

fn push_mask_line(
    buffer: &mut Vec<u8>,
    mask: u32,
    name: &[u8],
    names: &[u8],
) -> Result<(), AllocError>
    ensures { OnOk result (buffer.new.items ≡ buffer.old.items ++ mask_line mask name.now (shown_path names.now)) }
{
    push_hex(buffer, 8, mask)?;
    buffer.push(b' ')?;
    push_in_places(buffer, name)?;
    push_path_end(buffer, names)
}

fn push_head_line(buffer: &mut Vec<u8>, item: &Item) -> Result<(), AllocError>
    ensures { OnOk result (buffer.new.items ≡ buffer.old.items
        ++ head_line item.now.kind item.now.aclflag item.now.standing.owner
        item.now.standing.group (shown_path item.now.names.items)) }
{
    let flags = item.aclflag.bits();
    buffer.extend_from_slice(&[kind_letter(item.kind), b' ', b'0' + flags, b' '])?;
    push_in_places(buffer, item.standing.owner.text().as_bytes())?;
    buffer.push(b' ')?;
    push_in_places(buffer, item.standing.group.text().as_bytes())?;
    push_path_end(buffer, &item.names)
}

fn push_entry_line(buffer: &mut Vec<u8>, entry: &Entry) -> Result<(), AllocError>
    ensures { OnOk result (buffer.new.items ≡ buffer.old.items ++ entry_line entry.now) }
{
    buffer.extend_from_slice(&[b' ', b' ', type_letter(entry.allow()), b' '])?;
    push_hex(buffer, 2, u32::from(entry.flags().bits()))?;
    buffer.push(b' ')?;
    push_hex(buffer, 8, entry.mask().bits())?;
    buffer.push(b' ')?;
    buffer.extend_from_slice(entry.who().text().as_bytes())?;
    buffer.push(b'\n')?;
    Ok(())
}

/// A space, the path and the end of a line. The root has no names, and is `/`.
fn push_path_end(buffer: &mut Vec<u8>, names: &[u8]) -> Result<(), AllocError>
    ensures { OnOk result (buffer.new.items ≡ buffer.old.items ++ 32 ∷ shown_path names.now ++ 10 ∷ []) }
{
    buffer.push(b' ')?;
    if names.is_empty() {
        buffer.push(b'/')?;
    } else {
        buffer.extend_from_slice(names)?;
    }
    buffer.push(b'\n')?;
    Ok(())
}

fn kind_letter(kind: Kind) -> u8
    ensures { result ≡ kind_letter kind }
{
    match kind {
        Kind::File => b'f',
        Kind::Folder => b'd',
    }
}

fn type_letter(allow: bool) -> u8
    ensures { result ≡ (if allow then 65 else 68) }
{
    if allow { b'A' } else { b'D' }
}

/// A text left in as many places as the longest name takes.
fn push_in_places(buffer: &mut Vec<u8>, text: &[u8]) -> Result<(), AllocError>
    ensures { OnOk result (buffer.new.items ≡ buffer.old.items ++ in_places text.now) }
{
    buffer.extend_from_slice(text)?;
    let spaces = LONGEST_NAME.saturating_sub(text.len());
    for _ in 0..spaces {
        buffer.push(b' ')?;
    }
    Ok(())
}

/// So many hexadecimal digits of a number, the lowest ones.
fn push_hex(buffer: &mut Vec<u8>, places: u32, number: u32) -> Result<(), AllocError>
    ensures { OnOk result (buffer.new.items ≡ buffer.old.items ++ hex places number) }
{
    if places == 0 {
        return Ok(());
    }
    push_hex(buffer, places - 1, number / 16)?;
    buffer.push(hex_digit(number % 16))?;
    Ok(())
}

fn hex_digit(digit: u32) -> u8
    requires { digit < 16 }
    ensures { result ≡ digit_glyph false digit }
{
    if digit < 10 {
        b'0' + digit as u8
    } else {
        b'a' - 10 + digit as u8
    }
}
