//! Laws of histories. Each function here does nothing: its contract is what the definitions are meant
//! to say, proved of them.
ghost use Rattle.std.specs.Prelude.{◌≡◌, ◌≢◌, ◌≤◌, ◌↔◌, ℕ, ◌^◌, true, false, List, [], ◌∷◌, None, map};
ghost use Rattle.std.specs.Prelude.{◌++◌, ◌+◌, length, nat_eq, nat_lt};
ghost use Rattle.std.specs.List.{AllByRecursion, IsDistinct};
ghost use Rattle.room_acl.specs.SubjectModel.{SubjectModel};
ghost use Rattle.room_slots.specs.Slots.{next_number, verdict};
ghost use Rattle.room_slots.specs.declared.verdict.Verdict.TheVariants.{New};
ghost use Rattle.room_records.specs.Limits.{max_objects};
ghost use Rattle.room_records.specs.Records.{ObjectRecords, Records};
ghost use Rattle.room_records.specs.Room.{Room, IsRoom};
ghost use Rattle.room_records.specs.Representation.{RepresentsRoom};
ghost use Rattle.room_wire.specs.Asks.EventModel.{EventModel, Request, Open, Close, Slot};
ghost use Rattle.room_wire.specs.declared.answers.code.Code.TheVariants.{SeqFalseRetry, SeqMisordered};
ghost use Rattle.room_wire.specs.declared.answers.code.Code.TheVariants.{RetryUncached};
ghost use Rattle.room_wire.specs.Forms.Texts.{command_text};
ghost use Rattle.room_desk.specs.AnswerModel.{Reply, Refused, IsTurnedAway};
ghost use Rattle.room_desk.specs.History.{History, Accepted, session_of, is_open_for, slots_of, accepted, is_accepted};
ghost use Rattle.room_desk.specs.History.{is_for, AcceptsLawful, state_after, original_reply, answer_to, changes_rows};
ghost use Rattle.room_desk.specs.History.{leaves_no_reply};
ghost use Rattle.room_desk.specs.Representation.{RepresentsHistory, WasAllowed, slot_row_of};
ghost use Rattle.room_desk.specs.Verdicts.{answer_by};
ghost use Rattle.room_desk.specs.AlikePasts.{AlikePasts, asks_lawfully, caller_of, sid_of};
ghost use Rattle.room_commands.specs.OtherBytes.{room_with, blank};
ghost use Rattle.room_desk.specs.OtherBytes.{DifferInBytes, TellsOfRead};
ghost use Rattle.room_commands.specs.Made.{with_more};
ghost use Rattle.room_desk.specs.Made.{NeverFull, ended};
ghost use Rattle.room_desk.specs.NumberedAnew.{AreNumberedAnew};
ghost use Rattle.room_desk.specs.SessionRows.{closed_row};
ghost use Rattle.std.specs.Option.{option_map};
ghost use Rattle.std.specs.Prelude.{IsTrue, Bool, ◌⊎◌};
ghost use Rattle.std.specs.Str.{bytes_eq};

/// An event that is sent again at once changes nothing: not the room, and no row that stands for the history. It gets
/// its first answer, byte for byte, unless it is an accepted request whose reply is not kept: that is answered
/// RETRY_UNCACHED.
pub fn a_repeated_event_changes_nothing()
    ensures answer { (start : Room) (past : History) (event : EventModel) → leaves_no_reply past event ≡ false →
        answer_to start (event ∷ past) event ≡ answer_to start past event }
    ensures uncached { (start : Room) (past : History) (event : EventModel) → leaves_no_reply past event ≡ true →
        answer_to start (event ∷ past) event ≡ Refused RetryUncached }
    ensures room { (start : Room) (past : History) (event : EventModel)
        → state_after start (event ∷ event ∷ past) ≡ state_after start (event ∷ past) }
    ensures rows { (start : Room) (r : Records) (past : History) (event : EventModel) →
        RepresentsHistory start r (event ∷ past) → RepresentsHistory start r (event ∷ event ∷ past) }
{}

/// An event that is answered by a refusal with a code of 20 or above changes nothing; a command's own refusal is a
/// reply, and no such answer.
pub fn a_refused_event_changes_nothing()
    ensures room { (start : Room) (past : History) (event : EventModel) → IsTurnedAway (answer_to start past event) →
        state_after start (event ∷ past) ≡ state_after start past }
    ensures rows { (start : Room) (r : Records) (past : History) (event : EventModel)
        → IsTurnedAway (answer_to start past event) →
        RepresentsHistory start r past → RepresentsHistory start r (event ∷ past) }
{}

/// Nor does any other event that `changes_rows` leaves out, as a repeat, a second OPEN or a second CLOSE.
pub fn an_idle_event_changes_nothing()
    ensures room { (start : Room) (past : History) (event : EventModel) → changes_rows past event ≡ false →
        state_after start (event ∷ past) ≡ state_after start past }
    ensures rows { (start : Room) (r : Records) (past : History) (event : EventModel)
        → changes_rows past event ≡ false →
        RepresentsHistory start r past → RepresentsHistory start r (event ∷ past) }
{}

/// A request leaves the accepted requests of every other slot as they are, and one that is not accepted
/// those of its own slot too.
pub fn a_request_leaves_other_slots()
    ensures other { (past : History) (q : Request) (sid : List ℕ) (slot : ℕ) → is_for sid slot q ≡ false →
        accepted (Slot q ∷ past) sid slot ≡ accepted past sid slot }
    ensures refused { (past : History) (q : Request) (sid : List ℕ) (slot : ℕ) → is_accepted past q ≡ false →
        accepted (Slot q ∷ past) sid slot ≡ accepted past sid slot }
{}

/// Among the first 2^32 accepted requests of a slot of a session no number comes twice, and all of them
/// are for that slot of that session.
pub fn no_number_is_accepted_twice()
    ensures numbers { (past : History) (sid : List ℕ) (slot : ℕ) → length (accepted past sid slot) ≤ 2 ^ 32 →
        IsDistinct nat_eq (map (λ (a : Accepted). a.request.seq) (accepted past sid slot)) }
    ensures of_the_slot { (past : History) (sid : List ℕ) (slot : ℕ) →
        AllByRecursion (λ (a : Accepted). is_for sid slot a.request ≡ true) (accepted past sid slot) }
{}

/// In an open session of the caller, and a slot of it in which a request was accepted: the last number with the same
/// command gets the original reply of the last accepted request, byte for byte, however much came in between, where
/// that request asked that it be kept, and RETRY_UNCACHED where it did not; what the repeat asks of its reply does not
/// count. With another command it is a false retry; and a number that is neither the last nor the next is misordered.
pub fn a_repeat_gets_its_first_reply()
    ensures repeat { (start : Room) (past : History) (q : Request) (last : Accepted) (earlier : List Accepted) →
        is_open_for q.sid q.caller (session_of past q.sid) ≡ true
        → nat_lt q.slot (slots_of (session_of past q.sid)) ≡ true →
        accepted past q.sid q.slot ≡ last ∷ earlier →
        q.seq ≡ last.request.seq → command_text q.command ≡ command_text last.request.command →
        last.request.keep ≡ true → answer_to start past (Slot q) ≡ Reply (original_reply start last) }
    ensures uncached { (start : Room) (past : History) (q : Request) (last : Accepted) (earlier : List Accepted) →
        is_open_for q.sid q.caller (session_of past q.sid) ≡ true
        → nat_lt q.slot (slots_of (session_of past q.sid)) ≡ true →
        accepted past q.sid q.slot ≡ last ∷ earlier →
        q.seq ≡ last.request.seq → command_text q.command ≡ command_text last.request.command →
        last.request.keep ≡ false → answer_to start past (Slot q) ≡ Refused RetryUncached }
    ensures false_retry { (start : Room) (past : History) (q : Request) (last : Accepted) (earlier : List Accepted) →
        is_open_for q.sid q.caller (session_of past q.sid) ≡ true
        → nat_lt q.slot (slots_of (session_of past q.sid)) ≡ true →
        accepted past q.sid q.slot ≡ last ∷ earlier →
        q.seq ≡ last.request.seq → command_text q.command ≢ command_text last.request.command →
        answer_to start past (Slot q) ≡ Refused SeqFalseRetry }
    ensures misordered { (start : Room) (past : History) (q : Request) (last : Accepted) (earlier : List Accepted) →
        is_open_for q.sid q.caller (session_of past q.sid) ≡ true
        → nat_lt q.slot (slots_of (session_of past q.sid)) ≡ true →
        accepted past q.sid q.slot ≡ last ∷ earlier →
        q.seq ≢ last.request.seq → q.seq ≢ next_number (length (last ∷ earlier)) →
        answer_to start past (Slot q) ≡ Refused SeqMisordered }
{}

/// RETRY_UNCACHED tells nobody of another user's request: the session is open and the caller's own, the last accepted
/// request of the slot is the caller's own too, and what was sent is that request again, with its number and its
/// command. No reply of it is kept, as it asked.
pub fn retry_uncached_tells_of_an_own_request()
    ensures { (start : Room) (past : History) (event : EventModel) →
        answer_to start past event ≡ Refused RetryUncached →
        (q : Request) × (last : Accepted) × (earlier : List Accepted) × (event ≡ Slot q)
        × (is_open_for q.sid q.caller (session_of past q.sid) ≡ true)
        × (accepted past q.sid q.slot ≡ last ∷ earlier)
        × (last.request.caller.name ≡ q.caller.name) × (q.seq ≡ last.request.seq)
        × (command_text q.command ≡ command_text last.request.command) × (last.request.keep ≡ false) }
{}

/// OPEN and CLOSE that were answered with a reply get that reply again, however much came in between: OPEN while its
/// session is open, CLOSE always.
pub fn open_and_close_sent_again_get_their_first_reply()
    ensures open { (start : Room) (past later : History) (caller : SubjectModel) (sid : List ℕ) (slots : ℕ)
        (text : List ℕ) →
        answer_to start past (Open caller sid slots) ≡ Reply text →
        is_open_for sid caller (session_of (later ++ (Open caller sid slots ∷ past)) sid) ≡ true →
        answer_to start (later ++ (Open caller sid slots ∷ past)) (Open caller sid slots) ≡ Reply text }
    ensures close { (start : Room) (past later : History) (caller : SubjectModel) (sid : List ℕ) (text : List ℕ) →
        answer_to start past (Close caller sid) ≡ Reply text →
        answer_to start (later ++ (Close caller sid ∷ past)) (Close caller sid) ≡ Reply text }
{}

/// In an open session of the caller, the slot test by what the slot keeps answers as the history does,
/// and a request is accepted exactly where the test finds it new.
pub fn the_kept_row_tells_the_answer()
    ensures answer { (start : Room) (past : History) (q : Request) →
        is_open_for q.sid q.caller (session_of past q.sid) ≡ true
        → nat_lt q.slot (slots_of (session_of past q.sid)) ≡ true →
        answer_to start past (Slot q)
        ≡ answer_by (verdict (slot_row_of start past q.sid q.slot) q.seq (command_text q.command))
        (original_reply start (record { request = q; before = past })) (slot_row_of start past q.sid q.slot) }
    ensures accepted { (start : Room) (past : History) (q : Request) →
        is_open_for q.sid q.caller (session_of past q.sid) ≡ true
        → nat_lt q.slot (slots_of (session_of past q.sid)) ≡ true →
        (verdict (slot_row_of start past q.sid q.slot) q.seq (command_text q.command) ≡ New)
        ↔ (is_accepted past q ≡ true) }
{}

/// Rows that stand for a room, with no session and no slot, stand for the history without events that
/// begins with that room.
pub fn a_history_begins_with_a_room()
    ensures { (start : Room) (r : Records) → RepresentsRoom r.objects start →
        ((sid : List ℕ) → r.session sid ≡ None)
        → ((sid : List ℕ) (slot : ℕ) → r.slot sid slot ≡ None) → RepresentsHistory start r [] }
{}

/// A history that accepts lawful commands alone, and begins with a room, leaves a room.
pub fn a_history_keeps_a_room()
    ensures { (start : Room) (past : History) → IsRoom start → AcceptsLawful past → IsRoom (state_after start past) }
{}

/// A request that is accepted, and that its command does not refuse, had every right that the command
/// needs, by the lists just before it.
pub fn an_accepted_request_was_allowed()
    ensures { (start : Room) (past : History) (event : EventModel) → WasAllowed start past event }
{}

/// What a caller may not see of a history does not show in the answers to it, repeats among them: after two pasts that
/// differ only in what others did, and what of it the caller cannot see, each event of the caller's is answered alike.
pub fn what_may_not_be_seen_of_a_history_does_not_show()
    ensures { (caller : SubjectModel) (is_own_name : List ℕ → Bool) (a b : Room) (past other : History)
        (event : EventModel) → IsRoom a → IsRoom b → AlikePasts caller is_own_name a b past other →
        caller_of event ≡ caller → asks_lawfully event → IsTrue (is_own_name (sid_of event)) →
        answer_to a past event ≡ answer_to b other event }
{}

/// The bytes of documents show to reads alone. Two rooms differ in bytes of files, and not in how many they are; so do
/// two pasts, in what others asked to write. After them each event of the caller's is answered alike, or it is an
/// accepted READ of the caller's, or that same request sent again, which had READ_DATA when it was accepted: its answer
/// is that READ's reply.
pub fn the_bytes_of_documents_show_to_reads_alone()
    ensures { (caller : SubjectModel) (a b : Room) (past other : History) (event : EventModel) →
        room_with blank a ≡ room_with blank b → DifferInBytes caller past other →
        bytes_eq caller.name (caller_of event).name ≡ true →
        (answer_to a past event ≡ answer_to b other event)
        ⊎ TellsOfRead a past event (answer_to a past event) }
{}

/// How many numbers are left shows in a history by ROOM_FULL alone: where no request that a history accepts is answered
/// ROOM_FULL, with more numbers left at its beginning each event is answered alike, and as many more are left after it.
/// So a room can be put anew with fewer numbers used up: its rows, with the sessions and what the slots keep, stand for
/// the same history.
pub fn what_is_left_shows_in_a_history_by_room_full_alone()
    ensures answer { (more : ℕ) (start : Room) (past : History) (event : EventModel) →
        NeverFull start (event ∷ past) → answer_to (with_more more start) past event ≡ answer_to start past event }
    ensures room { (more : ℕ) (start : Room) (past : History) → NeverFull start past →
        state_after (with_more more start) past ≡ with_more more (state_after start past) }
    ensures rows { (more : ℕ) (start : Room) (r other : Records) (past : History) → NeverFull start past →
        RepresentsHistory start r past → RepresentsRoom other.objects (with_more more (state_after start past)) →
        other.session ≡ r.session → other.slot ≡ r.slot → RepresentsHistory (with_more more start) other past }
{}

/// Rows that are numbered anew stand for the same room with more numbers left: as many more as the next number went
/// down. With the sessions, and what the slots keep, as they were, they stand for the same history of a room that began
/// with that much more, unless a request in it was answered ROOM_FULL: and none was while a number is left.
pub fn rows_numbered_anew_stand_for_the_same_history()
    ensures room { (to : ℕ → ℕ) (old anew : ObjectRecords) (room : Room) (more : ℕ) → RepresentsRoom old room →
        AreNumberedAnew to old anew → anew.next + more ≡ old.next → RepresentsRoom anew (with_more more room) }
    ensures history { (to : ℕ → ℕ) (start : Room) (r other : Records) (past : History) (more : ℕ) →
        RepresentsHistory start r past → NeverFull start past → AreNumberedAnew to r.objects other.objects →
        other.objects.next + more ≡ r.objects.next → other.session ≡ r.session → other.slot ≡ r.slot →
        RepresentsHistory (with_more more start) other past }
    ensures never_full { (start : Room) (r : Records) (past : History) → RepresentsHistory start r past →
        r.objects.next ≤ max_objects → NeverFull start past }
{}

/// A room that is put anew in the place of one, as with other numbers for its objects: where each session is closed and
/// no slot keeps anything, the rows stand for a history that began with it.
pub fn a_room_put_anew_ends_its_sessions()
    ensures { (start anew : Room) (r other : Records) (past : History) → RepresentsHistory start r past →
        RepresentsRoom other.objects anew →
        ((sid : List ℕ) → other.session sid ≡ option_map closed_row (r.session sid)) →
        ((sid : List ℕ) (slot : ℕ) → other.slot sid slot ≡ None) →
        RepresentsHistory anew other (ended past) }
{}
