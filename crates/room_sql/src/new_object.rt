//! What a commit knows of the object that it makes, so that it adds rows where none can be.

ghost use Rattle.std.specs.Prelude.{◌≡◌};
ghost use Rattle.room_sql.specs.NewObject.{is_new, lacks_entries, lacks_doc, after_change};

use room_records::Change;

/// What a commit knows of one object, as it makes its changes one after another. It chooses the statements, and forgets
/// all after a change that makes no part of that object.
#[derive(Clone, Copy)]
pub(crate) enum NewObject {
    /// Nothing is known of any.
    Unknown,
    /// The commit has made the number after this one the next, so a node of this number is new: an INSERT adds it, and
    /// is refused where a row has the number.
    New(u32),
    /// The commit has added the row of this number. None of `entry` or `doc` refers to it.
    WithoutEntries(u32),
    /// The commit has added the row of this number. None of `doc` refers to it.
    WithoutDocument(u32),
}

impl NewObject {
    /// Whether a node of the number is new.
    pub(crate) fn is_new(self, id: u32) -> bool
        ensures { result ≡ is_new self id }
    {
        match self {
            NewObject::New(new) => new == id,
            _ => false,
        }
    }

    /// Whether it is the object that was added, and has no entries and no document yet.
    pub(crate) fn lacks_entries(self, id: u32) -> bool
        ensures { result ≡ lacks_entries self id }
    {
        match self {
            NewObject::WithoutEntries(made) => made == id,
            _ => false,
        }
    }

    /// Whether it is the object that was added, and has no document yet.
    pub(crate) fn lacks_doc(self, id: u32) -> bool
        ensures { result ≡ lacks_doc self id }
    {
        match self {
            NewObject::WithoutEntries(made) => made == id,
            NewObject::WithoutDocument(made) => made == id,
            _ => false,
        }
    }

    /// What is known after one more change.
    pub(crate) fn after(self, change: &Change) -> NewObject
        ensures { result ≡ after_change self change.now }
    {
        match change {
            Change::PutNode(node) if self.is_new(node.id) => NewObject::WithoutEntries(node.id),
            Change::PutEntries(id, _) if self.lacks_entries(*id) => NewObject::WithoutDocument(*id),
            Change::PutNext(next) if *next > 0 => NewObject::New(*next - 1),
            _ => NewObject::Unknown,
        }
    }
}
