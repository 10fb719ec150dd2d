//! Objects of JSON, written into the buffer member by member.
ghost use Rattle.std.specs.Prelude.{◌≡◌, [], ◌∷◌, ◌++◌, IfOk, OnOk, codes, decimal};
ghost use Rattle.std.specs.List.{AllByRecursion};
ghost use Rattle.json.specs.Token.{Token as SpecToken};
ghost use Rattle.json.specs.Print.{print, quoted};
ghost use Rattle.json.specs.Tree.{json_tokens, items_tokens};
ghost use Rattle.serde_json.specs.Data.{string};
ghost use Rattle.serde_json.specs.Written.{outline, items_outline};
ghost use Rattle.room_acl.specs.Entries.{IsEntry};
ghost use Rattle.room_wire.specs.Forms.Texts.{num, obj};
ghost use Rattle.room_wire.specs.Forms.Texts as T;
ghost use Rattle.room_wire.specs.Forms.Writing.{Adds};

use json::Writer;
use room_acl::Entry;
use std::alloc::{AllocError, Global};

/// Bytes that are reserved for the members of an object that are no list and no long text.
pub(crate) const SHORT_MEMBERS: usize = 128;

/// Bytes that are reserved for so many entries, 64 each, and the short members beside them.
pub(crate) fn size_of_entries(entries: usize) -> usize {
    entries.saturating_mul(64).saturating_add(SHORT_MEMBERS)
}

/// An object that has no member yet, with so many bytes reserved for it.
pub(crate) fn begun(alloc: Global, size: usize) -> Result<Writer, AllocError>
    ensures { IfOk result (λ out. (out.before ≡ []) × (out.tokens ≡ SpecToken.begin_object ∷ [])) }
{
    let mut out = Writer::new(Vec::with_capacity(alloc, size)?);
    out.begin_object()?;
    Ok(out)
}

/// The text of the object that ends here.
pub(crate) fn ended(mut out: Writer) -> Result<Vec<u8>, AllocError>
    ensures { IfOk result (λ text. text.items ≡ out.before ++ print (out.tokens ++ SpecToken.end_object ∷ [])) }
{
    out.end_object()?;
    Ok(out.into_inner())
}

pub(crate) fn text_member(out: &mut Writer, name: &str, text: &str) -> Result<(), AllocError>
    ensures { Adds result out.old out.new (SpecToken.key name.now ∷ SpecToken.string text.now ∷ []) }
{
    out.key(name)?;
    out.string(text)
}

pub(crate) fn number_member(out: &mut Writer, name: &str, number: u64) -> Result<(), AllocError>
    ensures { Adds result out.old out.new (SpecToken.key name.now ∷ SpecToken.number (decimal number) ∷ []) }
{
    out.key(name)?;
    out.u64(number)
}

fn entry_item(
    out: &mut Writer,
    flags: u8,
    mask: u32,
    kind: u64,
    who: &str,
) -> Result<(), AllocError>
    ensures { Adds result out.old out.new (json_tokens (outline (obj ((codes "flag", num flags)
        ∷ (codes "mask", num mask) ∷ (codes "type", num kind) ∷ (codes "who", string who.now) ∷ [])))) }
{
    out.begin_object()?;
    number_member(out, "flag", u64::from(flags))?;
    number_member(out, "mask", u64::from(mask))?;
    number_member(out, "type", kind)?;
    text_member(out, "who", who)?;
    out.end_object()
}

fn entry_of(out: &mut Writer, entry: &Entry) -> Result<(), AllocError>
    ensures written { Adds result out.old out.new (json_tokens (outline (T.entry entry.now))) }
    ensures lawful { IsEntry entry.now }
{
    let kind = if entry.allow() { 0 } else { 1 };
    entry_item(
        out,
        entry.flags().bits(),
        entry.mask().bits(),
        kind,
        entry.who().text(),
    )
}

/// The member `entries`: the entries in their order.
pub(crate) fn entries_member(out: &mut Writer, entries: &[Entry]) -> Result<(), AllocError>
    ensures written { Adds result out.old out.new (SpecToken.key (codes "entries")
        ∷ SpecToken.begin_array ∷ items_tokens (items_outline (T.entries entries.now))) }
    ensures lawful { OnOk result (AllByRecursion IsEntry entries.now) }
{
    out.key("entries")?;
    out.begin_array()?;
    for entry in entries {
        entry_of(out, entry)?;
    }
    out.end_array()
}

/// The bytes, and behind them this text in quotes.
pub(crate) fn with_quoted(bytes: Vec<u8>, text: &str) -> Result<Vec<u8>, AllocError>
    ensures { IfOk result (λ all. all.items ≡ bytes.items ++ quoted text.now) }
{
    let mut out = Writer::new(bytes);
    out.string(text)?;
    Ok(out.into_inner())
}

/// An empty text. Reserved are the letters of so many bytes in base64, four for three bytes, and some more bytes.
pub(crate) fn reserved(alloc: Global, bytes: usize, more: usize) -> Result<Vec<u8>, AllocError>
    ensures { IfOk result (λ text. text.items ≡ []) }
{
    let letters = (bytes / 3).saturating_add(1).saturating_mul(4);
    Vec::with_capacity(alloc, letters.saturating_add(more))
}
