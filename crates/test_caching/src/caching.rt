//! What a shelf that remembers asks of the shelf inside, and what it answers from memory.
use crate::caching::Call::{
    Child, ChildCount, Children, Decide, Doc, DocSize, DropSlots, Entries, Names, Next, Node,
    PutList, PutSlot, Seq, Session, Slot,
};
use crate::caching::Row::{Asks, Knows};
use room_acl::{Kind, Mask, Standing, Who};
use room_cache::CachedShelf;
use room_records::{Change, MemShelf, Shelf, Sid, TripShelf};
use std::alloc::Global;
use std::test::Fail;
use test_support::{
    commit, file_name, handed_down, in_memory, must, named, node_in_root, session_name,
    session_row, slot_row, subject,
};

/// A call of a shelf: of the root, of a session, or of a slot of a session that has a number.
#[derive(Clone, Copy)]
enum Call {
    Node,
    Child(&'static str),
    Children,
    ChildCount,
    Names,
    Entries,
    /// What this user may do where this one is the owner, of these rights.
    Decide(&'static str, &'static str, u32),
    Doc,
    DocSize,
    Next,
    Session,
    Slot(u32, u32),
    Seq(u32, u32),
    /// Commits: another list of the root; no slot of a session but its first; a slot.
    PutList,
    DropSlots(u32),
    PutSlot(u32, u32),
}

/// A call that asks the shelf inside, or that memory answers.
#[derive(Clone, Copy)]
enum Row {
    Asks(Call),
    Knows(Call),
}

impl Row {
    fn call(self) -> Call {
        match self {
            Asks(call) | Knows(call) => call,
        }
    }
}

/// Each row is asked for once, but for documents, and nodes and names of a folder. What a slot keeps tells its number
/// too; its number does not tell what it keeps.
static ONCE: [Row; 31] = [
    Asks(Node),
    Asks(Child("a")),
    Asks(Decide("ann", "bob", 1)),
    Asks(Entries),
    Asks(Next),
    Asks(Session),
    Asks(Seq(0, 0)),
    Asks(Seq(0, 1)),
    Asks(Slot(0, 2)),
    Knows(Seq(0, 2)),
    Knows(Slot(0, 2)),
    Knows(Node),
    Knows(Child("a")),
    Knows(Decide("ann", "bob", 1)),
    Knows(Entries),
    Knows(Next),
    Knows(Session),
    Knows(Seq(0, 0)),
    Knows(Seq(0, 1)),
    Asks(Slot(0, 1)),
    Knows(Slot(0, 1)),
    Asks(Children),
    Asks(Children),
    Asks(Names),
    Asks(Names),
    Asks(ChildCount),
    Asks(ChildCount),
    Asks(Doc),
    Asks(Doc),
    Asks(DocSize),
    Asks(DocSize),
];

/// Another user, owner or mask, and a list that was changed, are asked for anew.
static DECISIONS: [Row; 17] = [
    Asks(Decide("ann", "bob", 1)),
    Asks(Decide("bob", "bob", 1)),
    Asks(Decide("ann", "bob", 2)),
    Asks(Decide("ann", "ann", 1)),
    Knows(Decide("ann", "bob", 1)),
    Knows(Decide("bob", "bob", 1)),
    Knows(Decide("ann", "bob", 2)),
    Knows(Decide("ann", "ann", 1)),
    Asks(PutList),
    Asks(Decide("ann", "bob", 1)),
    Asks(Decide("bob", "bob", 1)),
    Asks(Decide("ann", "bob", 2)),
    Asks(Decide("ann", "ann", 1)),
    Knows(Decide("ann", "bob", 1)),
    Knows(Decide("bob", "bob", 1)),
    Knows(Decide("ann", "bob", 2)),
    Knows(Decide("ann", "ann", 1)),
];

/// Commits leave what they don't touch, and what they put in slots is remembered.
static OVER_COMMITS: [Row; 12] = [
    Asks(Session),
    Asks(Child("a")),
    Asks(Child("b")),
    Asks(DropSlots(0)),
    Asks(PutSlot(0, 1)),
    Knows(Session),
    Knows(Child("a")),
    Knows(Child("b")),
    Knows(Seq(0, 0)),
    Knows(Seq(0, 1)),
    Knows(Slot(0, 0)),
    Knows(Slot(0, 1)),
];

/// What the user `owner` and `eng` own.
fn standing(alloc: Global, owner: &str) -> Result<Standing, Fail> {
    Ok(Standing {
        owner: named(alloc, owner)?,
        group: named(alloc, "eng")?,
    })
}

/// Whether the list of the root decides for this user, where this one is the owner, of these rights.
fn decides<S: Shelf>(
    alloc: Global,
    shelf: &mut S,
    user: &str,
    owner: &str,
    bits: u32,
) -> Result<bool, Fail> {
    let subject = subject(alloc, user)?;
    let standing = standing(alloc, owner)?;
    let mask = Mask::new(bits).ok_or("a mask was refused")?;
    Ok(shelf.decide_at(1, &subject, &standing, mask).is_ok())
}

/// The name of a session by its number.
fn sid_of(alloc: Global, at: u32) -> Result<Sid, Fail> {
    session_name(alloc, format!(in alloc; "{at:032x}")?.as_str())
}

fn put_slot(alloc: Global, session: u32, slot: u32) -> Result<Change, Fail> {
    let sid = format!(in alloc; "{session:032x}")?;
    slot_row(alloc, sid.as_str(), slot, 9, None)
}

fn put_list(alloc: Global) -> Result<Change, Fail> {
    let entry = handed_down(1, Who::Owner)?;
    Ok(Change::PutEntries(1, vec![in alloc; entry]?))
}

fn drop_slots(alloc: Global, session: u32) -> Result<Vec<Change>, Fail> {
    let dropped = Change::DropSlots(sid_of(alloc, session)?);
    let put = put_slot(alloc, session, 0)?;
    Ok(vec![in alloc; dropped, put]?)
}

/// The change alone.
fn only(alloc: Global, change: Result<Change, Fail>) -> Result<Vec<Change>, Fail> {
    Ok(vec![in alloc; change?]?)
}

/// The changes of a commit, none of another call.
fn changes(alloc: Global, call: Call) -> Result<Vec<Change>, Fail> {
    match call {
        PutList => only(alloc, put_list(alloc)),
        DropSlots(session) => drop_slots(alloc, session),
        PutSlot(session, slot) => only(alloc, put_slot(alloc, session, slot)),
        _ => Ok(Vec::new(alloc)),
    }
}

fn is_committed<S: Shelf>(alloc: Global, shelf: &mut S, call: Call) -> Result<bool, Fail> {
    let changes = changes(alloc, call)?;
    Ok(shelf.commit(changes.as_slice()).is_ok())
}

fn has_child<S: Shelf>(alloc: Global, shelf: &mut S, name: &str) -> Result<bool, Fail> {
    let name = file_name(alloc, name)?;
    Ok(shelf.child(1, &name).is_ok())
}

/// Whether a call about a session or its slots is answered.
fn is_told<S: Shelf>(shelf: &mut S, sid: &Sid, call: Call) -> bool {
    match call {
        Slot(_, slot) => shelf.slot(sid, slot).is_ok(),
        Seq(_, slot) => shelf.slot_seq(sid, slot).is_ok(),
        _ => shelf.session(sid).is_ok(),
    }
}

/// Whether a call without names is answered, of the root or of the next number.
fn is_read<S: Shelf>(shelf: &mut S, call: Call) -> bool {
    match call {
        Node => shelf.node(1).is_ok(),
        Children => shelf.children(1).is_ok(),
        ChildCount => shelf.child_count(1).is_ok(),
        Names => shelf.names(1).is_ok(),
        Entries => shelf.entries(1).is_ok(),
        Doc => shelf.doc(1).is_ok(),
        DocSize => shelf.doc_size(1).is_ok(),
        _ => shelf.next_id().is_ok(),
    }
}

/// Whether a call is answered.
fn is_answered<S: Shelf>(alloc: Global, shelf: &mut S, call: Call) -> Result<bool, Fail> {
    match call {
        Child(name) => has_child(alloc, shelf, name),
        Decide(user, owner, bits) => decides(alloc, shelf, user, owner, bits),
        Session => Ok(is_told(shelf, &sid_of(alloc, 0)?, call)),
        Slot(session, _) | Seq(session, _) => Ok(is_told(shelf, &sid_of(alloc, session)?, call)),
        PutList | DropSlots(_) | PutSlot(_, _) => is_committed(alloc, shelf, call),
        Node | Children | ChildCount | Names | Entries | Doc | DocSize | Next => {
            Ok(is_read(shelf, call))
        }
    }
}

/// The place of the first call that is not answered, or how many there are.
fn first_refused<S: Shelf>(alloc: Global, shelf: &mut S, rows: &[Row]) -> Result<usize, Fail> {
    for (at, row) in rows.iter().enumerate() {
        if !is_answered(alloc, shelf, row.call())? {
            return Ok(at);
        }
    }
    Ok(rows.len())
}

fn put_folder(alloc: Global, id: u32, name: &str) -> Result<Change, Fail> {
    Ok(Change::PutNode(node_in_root(alloc, id, name, Kind::Folder)?))
}

/// /a and /b, and a session.
fn folders(alloc: Global) -> Result<Vec<Change>, Fail> {
    let mut changes = Vec::new(alloc);
    changes.push(put_folder(alloc, 2, "a")?)?;
    changes.push(put_folder(alloc, 3, "b")?)?;
    changes.push(Change::PutNext(4))?;
    changes.push(session_row(alloc, "00000000000000000000000000000000", 2, true)?)?;
    Ok(changes)
}

/// Numbers in the 16 slots of 16 sessions: as many as are remembered.
fn push_slots(alloc: Global, changes: &mut Vec<Change>) -> Result<(), Fail> {
    for at in 0..256 {
        changes.push(put_slot(alloc, at / 16, at % 16)?)?;
    }
    Ok(())
}

/// A room with folders, a session and numbers.
fn room(alloc: Global) -> Result<MemShelf, Fail> {
    let mut changes = folders(alloc)?;
    push_slots(alloc, &mut changes)?;
    let mut shelf = in_memory(alloc)?;
    commit(&mut shelf, changes)?;
    Ok(shelf)
}

/// The place of the first call that is not answered where the shelf inside refuses its k-th call.
fn refused_at(alloc: Global, rows: &[Row], k: u64) -> Result<usize, Fail> {
    let mut shelf = CachedShelf::new(alloc, TripShelf::new(room(alloc)?, k));
    let at = first_refused(alloc, &mut shelf, rows);
    let _ = shelf.into_inner().into_inner();
    at
}

/// Where the shelf inside refuses its k-th call, the call at this place is the first that is not answered.
fn refuses_at(alloc: Global, rows: &[Row], k: u64, place: usize) -> Result<(), Fail> {
    let found = refused_at(alloc, rows, k)?;
    if found != place {
        return Err(Fail::new(format_args!("call {k}: {found} and not {place}")));
    }
    Ok(())
}

/// The k-th call of the shelf inside is made by the k-th row that asks it, and by no other.
fn asks_as_told(alloc: Global, rows: &[Row]) -> Result<(), Fail> {
    let mut asked = 0u64;
    for (at, row) in rows.iter().enumerate() {
        if matches!(row, Asks(_)) {
            asked = asked.saturating_add(1);
            refuses_at(alloc, rows, asked, at)?;
        }
    }
    refuses_at(alloc, rows, asked.saturating_add(1), rows.len())
}

#[test]
fn what_is_remembered_is_not_asked_again(rt: HostRuntime) -> Result<(), Fail> {
    asks_as_told(rt.alloc(), &ONCE)
}

#[test]
fn a_decision_is_not_asked_again(rt: HostRuntime) -> Result<(), Fail> {
    asks_as_told(rt.alloc(), &DECISIONS)
}

#[test]
fn a_commit_leaves_what_it_does_not_touch(rt: HostRuntime) -> Result<(), Fail> {
    asks_as_told(rt.alloc(), &OVER_COMMITS)
}

/// The number of each of 256 slots.
fn push_numbers(rows: &mut Vec<Row>, is_known: bool) -> Result<(), Fail> {
    for at in 0..256 {
        let call = Seq(at / 16, at % 16);
        rows.push(if is_known { Knows(call) } else { Asks(call) })?;
    }
    Ok(())
}

/// What a slot keeps tells a number that is remembered already. The document is the 258th call of the shelf inside.
#[test]
fn a_row_that_is_remembered_takes_no_place_of_others(rt: HostRuntime) -> Result<(), Fail> {
    let mut rows = Vec::new(rt.alloc());
    push_numbers(&mut rows, false)?;
    rows.push(Asks(Slot(3, 5)))?;
    push_numbers(&mut rows, true)?;
    rows.push(Asks(Doc))?;
    refuses_at(rt.alloc(), rows.as_slice(), 258, 513)
}

static NODE_AND_DOC: [Row; 2] = [Asks(Node), Asks(Doc)];

static NEXT_AND_NODE: [Row; 2] = [Asks(Next), Asks(Node)];

/// Its second call of the shelf inside is refused, and behind that its third: the node again, and not the next number.
fn forgets<S: Shelf>(alloc: Global, shelf: &mut S) -> Result<(), Fail> {
    let document = first_refused(alloc, shelf, &NODE_AND_DOC)?;
    let node = first_refused(alloc, shelf, &NEXT_AND_NODE)?;
    must(
        (document, node) == (1, 1),
        "the document, and the node again",
    )
}

#[test]
fn a_fault_makes_it_forget(rt: HostRuntime) -> Result<(), Fail> {
    let alloc = rt.alloc();
    let inner = TripShelf::new(TripShelf::new(room(alloc)?, 3), 2);
    let mut shelf = CachedShelf::new(alloc, inner);
    let done = forgets(alloc, &mut shelf);
    let _ = shelf.into_inner().into_inner().into_inner();
    done
}
