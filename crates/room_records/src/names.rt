//! File names, paths and session names.
ghost use Rattle.std.specs.Prelude.{◌≡◌, ℕ, List, ◌≤◌, ◌<◌, IfOk, IsSome, IfSome, ◌↔◌, IsTrue, map, length};
ghost use Rattle.std.specs.Prelude.{take, [], ◌∷◌, string_bytes};
ghost use Rattle.std.specs.Prelude.{◌==◌};
ghost use Rattle.std.specs.List.{list_all, slice_split, flat_map};
ghost use Rattle.room_records.specs.Limits.{IsSlotCount};
ghost use Rattle.room_records.specs.Names.{IsFileName, is_file_name, IsPath, path_text, is_sid, is_name_byte};
ghost use Rattle.room_records.specs.Names.{is_hex_digit};

use crate::limits::{MAX_NAME_BYTES, MAX_NAMES, MAX_SLOTS, SID_BYTES};
use std::alloc::{AllocError, Global};
use std::marker::Model;

/// A name in a folder: 1 to 64 bytes of UTF-8 without `/`, the characters below U+0020 and U+007F,
/// and neither `.` nor `..` (our own rule).
#[derive(Debug, Drop)]
pub struct FileName {
    text: String,
}

impl Model for FileName {
    ghost use Rattle.std.specs.Prelude.{List, ℕ, string_bytes};
    ghost use Rattle.room_records.specs.Names.{IsFileName};

    ghost Value = { List ℕ };

    ghost view = { λ n. string_bytes n.text };

    ghost invariant = { λ n. IsFileName (string_bytes n.text) };
}

impl FileName {
    /// The name with this text; `None` exactly where the text is no name.
    pub fn new(alloc: Global, text: &str) -> Result<Option<FileName>, AllocError>
        ensures lawful { IfOk result (λ made. IsSome made ↔ IsFileName text.now) }
        ensures value { IfOk result (λ made. IfSome made (λ name. name ≡ text.now)) }
    {
        if !is_file_name(text) {
            return Ok(None);
        }
        let text = String::from_str(alloc, text)?;
        Ok(Some(FileName { text }))
    }

    pub fn text(&self) -> &str
        ensures value { result.now ≡ self.now }
        ensures lawful { IsFileName self.now }
    {
        self.text.as_str()
    }

    pub fn clone(&self) -> Result<FileName, AllocError>
        ensures { IfOk result (λ copy. copy ≡ self.now) }
    {
        let text = self.text.clone()?;
        Ok(FileName { text })
    }
}

fn is_file_name(text: &str) -> bool
    ensures { result ≡ is_file_name text.now }
{
    let bytes = text.as_bytes();
    1 <= bytes.len()
        && bytes.len() <= MAX_NAME_BYTES
        && all_name_bytes(bytes)
        && bytes != b".".as_slice()
        && bytes != b"..".as_slice()
}

fn all_name_bytes(bytes: &[u8]) -> bool
    ensures { result ≡ list_all is_name_byte bytes.now }
{
    bytes.iter().all(|b| is_name_byte(*b))
}

/// Neither a control character, nor `/`, nor U+007F.
fn is_name_byte(b: u8) -> bool
    ensures { result ≡ is_name_byte b }
{
    32 <= b && b != 47 && b != 127
}

/// A place in the room: the names from the root down, at most 16 (our own rule). Its text has a `/`
/// before each name, and the root is `/`.
#[derive(Debug, Drop)]
pub struct Path {
    names: Vec<FileName>,
}

impl Model for Path {
    ghost use Rattle.std.specs.Prelude.{List, ℕ};
    ghost use Rattle.room_records.specs.Names.{IsPath};

    ghost Value = { List (List ℕ) };

    ghost view = { λ p. p.names.items };

    ghost invariant = { λ p. IsPath p.names.items };
}

impl Path {
    /// The path with this text; `None` exactly where the text is no path's.
    pub fn read(alloc: Global, text: &str) -> Result<Option<Path>, AllocError>
        ensures some { IfOk result (λ read. IfSome read (λ path. IsPath path × (path_text path ≡ text.now))) }
        ensures every { IfOk result (λ read. (path : List (List ℕ))
            → IsPath path → path_text path ≡ text.now → read ≡ Some path) }
    {
        if text == "/" {
            return Ok(Some(Path {
                names: Vec::new(alloc),
            }));
        }
        let parts = split_at_slashes(alloc, text)?;
        let Some((front, parts)) = parts.as_slice().split_first() else {
            return Ok(None);
        };
        if !front.is_empty() || parts.is_empty() {
            return Ok(None);
        }
        match read_names(alloc, parts)? {
            Some(names) => Ok(Some(Path { names })),
            None => Ok(None),
        }
    }

    pub fn names(&self) -> &[FileName]
        ensures value { result.now ≡ self.now }
        ensures lawful { IsPath self.now }
    {
        self.names.as_slice()
    }

    /// The path as text, which `read` reads back.
    pub fn text(&self, alloc: Global) -> Result<String, AllocError>
        ensures value { IfOk result (λ text. string_bytes text ≡ path_text self.now) }
        ensures lawful { IsPath self.now }
    {
        if self.names.is_empty() {
            return String::from_str(alloc, "/");
        }
        joined_names(alloc, self.names.as_slice())
    }

    pub fn clone(&self) -> Result<Path, AllocError>
        ensures { IfOk result (λ copy. copy ≡ self.now) }
    {
        let names = copied_names(*self.names.allocator(), self.names.as_slice())?;
        Ok(Path { names })
    }

    /// The path of the first `count` names, or the whole path where it has no more.
    pub fn front(&self, alloc: Global, count: usize) -> Result<Path, AllocError>
        ensures { IfOk result (λ front. front ≡ take count self.now) }
    {
        let all = self.names();
        let names = copied_names(alloc, &all[..count.min(all.len())])?;
        Ok(Path { names })
    }
}

fn copied_names(alloc: Global, names: &[FileName]) -> Result<Vec<FileName>, AllocError>
    ensures { IfOk result (λ copy. copy.items ≡ names.now) }
{
    let mut copy = Vec::new(alloc);
    for name in names {
        copy.push(name.clone()?)?;
    }
    Ok(copy)
}

/// The names with a `/` before each.
fn joined_names(alloc: Global, names: &[FileName]) -> Result<String, AllocError>
    ensures { IfOk result (λ text. string_bytes text ≡ flat_map (λ n. 47 ∷ n) names.now) }
{
    let mut text = String::new(alloc);
    for name in names {
        text.push('/')?;
        text.push_str(name.text())?;
    }
    Ok(text)
}

fn split_at_slashes(alloc: Global, text: &str) -> Result<Vec<&str>, AllocError>
    ensures { IfOk result (λ parts. map (λ p. p.now) parts.items ≡ slice_split (λ b. b == 47) text.now) }
{
    text.split('/').collect(alloc)
}

/// The names with these texts; `None` exactly where they are no path's.
fn read_names(alloc: Global, parts: &[&str]) -> Result<Option<Vec<FileName>>, AllocError>
    ensures lawful { IfOk result (λ read. IsSome read ↔ IsPath (map (λ p. p.now) parts.now)) }
    ensures value { IfOk result (λ read. IfSome read (λ names. names.items ≡ map (λ p. p.now) parts.now)) }
{
    if parts.len() > MAX_NAMES {
        return Ok(None);
    }
    let mut names = Vec::new(alloc);
    for part in parts {
        let Some(name) = FileName::new(alloc, part)? else {
            return Ok(None);
        };
        names.push(name)?;
    }
    Ok(Some(names))
}

/// The name of a session: 32 lower-case hexadecimal digits (our own rule).
#[derive(Debug, Drop)]
pub struct Sid {
    text: String,
}

impl Model for Sid {
    ghost use Rattle.std.specs.Prelude.{List, ℕ, string_bytes, IsTrue};
    ghost use Rattle.room_records.specs.Names.{is_sid};

    ghost Value = { List ℕ };

    ghost view = { λ s. string_bytes s.text };

    ghost invariant = { λ s. IsTrue (is_sid (string_bytes s.text)) };
}

impl Sid {
    /// The session name with this text; `None` exactly where the text is none.
    pub fn new(alloc: Global, text: &str) -> Result<Option<Sid>, AllocError>
        ensures lawful { IfOk result (λ made. IsSome made ↔ IsTrue (is_sid text.now)) }
        ensures value { IfOk result (λ made. IfSome made (λ sid. sid ≡ text.now)) }
    {
        if text.len() != SID_BYTES || !all_hex_digits(text.as_bytes()) {
            return Ok(None);
        }
        let text = String::from_str(alloc, text)?;
        Ok(Some(Sid { text }))
    }

    pub fn text(&self) -> &str
        ensures value { result.now ≡ self.now }
        ensures lawful { IsTrue (is_sid self.now) }
    {
        self.text.as_str()
    }

    pub fn clone(&self) -> Result<Sid, AllocError>
        ensures { IfOk result (λ copy. copy ≡ self.now) }
    {
        let text = self.text.clone()?;
        Ok(Sid { text })
    }
}

fn all_hex_digits(bytes: &[u8]) -> bool
    ensures { result ≡ list_all is_hex_digit bytes.now }
{
    bytes.iter().all(|b| is_hex_digit(*b))
}

fn is_hex_digit(b: u8) -> bool
    ensures { result ≡ is_hex_digit b }
{
    (48 <= b && b <= 57) || (97 <= b && b <= 102)
}

/// How many slots a session has: 1 to 16.
#[derive(Clone, Copy, Debug, PartialEq, Eq)]
pub struct SlotCount {
    count: u32,
}

impl Model for SlotCount {
    ghost use Rattle.std.specs.Prelude.{ℕ};
    ghost use Rattle.room_records.specs.Limits.{IsSlotCount};

    ghost Value = { ℕ };

    ghost view = { λ s. s.count };

    ghost invariant = { λ s. IsSlotCount s.count };

    ghost inverse = { λ n. record { count = n } };
}

impl SlotCount {
    pub fn new(count: u32) -> Option<SlotCount>
        ensures lawful { IsSome result ↔ IsSlotCount count }
        ensures value { IfSome result (λ slots. slots ≡ count) }
    {
        if 1 <= count && count <= MAX_SLOTS {
            Some(SlotCount { count })
        } else {
            None
        }
    }

    pub fn get(self) -> u32
        ensures value { result ≡ self }
        ensures lawful { IsSlotCount self }
    {
        self.count
    }
}
