//! Laws of rooms and commands. Each function here does nothing: its contract is what the definitions
//! are meant to say, proved of them.
ghost use Rattle.std.specs.Prelude.{◌≡◌, ℕ, true, false, List, [], ◌∷◌, ◌++◌, Some, None, map, if◌then◌else◌, ◌↔◌};
ghost use Rattle.std.specs.Prelude.{Contains, ◌⊎◌, ◌||◌, Ok, Err, is_none};
ghost use Rattle.std.specs.List.{AllByRecursion};
ghost use Rattle.std.specs.List.Sorted.{IsStrictlySortedBy};
ghost use Rattle.room_acl.specs.declared.subject.Kind.{Kind};
ghost use Rattle.room_acl.specs.SubjectModel.{SubjectModel};
ghost use Rattle.room_acl.specs.Entries.{EntryModel};
ghost use Rattle.room_acl.specs.Bits.{read_data, has_flag, protected_flag};
ghost use Rattle.room_acl.specs.Access.{is_owner};
ghost use Rattle.room_acl.specs.Inheritance.{handed_down, own_entries_fault};
ghost use Rattle.room_records.specs.Names.{Name, Path, name_cmp};
ghost use Rattle.room_records.specs.Room.{Object, Room, IsRoom, fresh_room, object_at, children, list_of, follows};
ghost use Rattle.room_records.specs.Room.{standing_of};
ghost use Rattle.room_commands.specs.CommandModel.{CommandModel, Read, Write, Append, Rename, GetList, SetList};
ghost use Rattle.room_commands.specs.CommandModel.{Chown, Stat};
ghost use Rattle.room_commands.specs.CommandModel.{paths_of};
ghost use Rattle.room_commands.specs.ReplyModel.{IsNotDone, Bytes, Entries, Done, NotDone, Refusal};
ghost use Rattle.room_commands.specs.declared.reply.RefusalCode.TheVariants.{NoEnt};
ghost use Rattle.room_commands.specs.SetList.{own_entries_of_setlist};
ghost use Rattle.room_commands.specs.Lawful.{IsLawful};
ghost use Rattle.room_commands.specs.Checks.{bytes_at, is_at_or_below, walk, refusal_without_place};
ghost use Rattle.room_commands.specs.Checks.{is_full, check_folder_full};
ghost use Rattle.room_commands.specs.Effect.{effect};
ghost use Rattle.room_commands.specs.Needs.{NeedsAllowed, IsDenial};
ghost use Rattle.room_commands.specs.Sight.{LooksAlike, StayAlike, BytesUnseen, HasNoPower, OthersUnseen, Turn};
ghost use Rattle.room_commands.specs.OtherBytes.{room_with, command_with, reply_with};
ghost use Rattle.room_commands.specs.Made.{with_more, IsRoomFull};
ghost use Rattle.room_commands.specs.Elsewhere.{IsOff, HoldsNeither, IsAboveNeither, but_full, but_depth};
ghost use Rattle.room_commands.specs.Elsewhere.{but_names, view_less, IsOutOfSight, AddsNowhere, ListUnseen};
ghost use Rattle.room_commands.specs.Elsewhere.{IsUnlisted};
ghost use Rattle.room_commands.specs.Sight.{may, may_add, may_remove, changes_bytes_alone, Own, own_turns};
ghost use Rattle.room_commands.specs.Sight.{Sight, view, IsSightTold, depth_in, replies_among};

/// A fresh room is a room.
pub fn a_fresh_room_is_a_room()
    ensures { (owner group : List ℕ) → IsRoom (fresh_room owner group) }
{}

/// Every command leaves a room a room: the root a folder, the parent of each other path a folder of
/// the room, each path once, and the limits kept.
pub fn a_command_keeps_a_room()
    ensures { (room : Room) (caller : SubjectModel) (command : CommandModel) →
        IsLawful command → IsRoom room → IsRoom (effect room caller command).room }
{}

/// A command that is refused leaves the room as it was.
pub fn a_refused_command_leaves_the_room()
    ensures { (room : Room) (caller : SubjectModel) (command : CommandModel) →
        IsNotDone (effect room caller command).reply → (effect room caller command).room ≡ room }
{}

/// A command that is not refused had every right that it needs, by the lists before it.
pub fn a_success_had_every_right()
    ensures { (room : Room) (caller : SubjectModel) (command : CommandModel) →
        (IsNotDone (effect room caller command).reply → ⊥) → NeedsAllowed room caller command }
{}

/// And a command that has every right that it needs is refused for none: no right is asked that it does not need.
pub fn who_has_every_right_is_refused_for_none()
    ensures { (room : Room) (caller : SubjectModel) (command : CommandModel) →
        NeedsAllowed room caller command → IsDenial (effect room caller command).reply → ⊥ }
{}

/// The owner of an object can always read its list and set it, where the folders above let the owner through (`walk`
/// meets no refusal): GETLIST gives the list, and SETLIST of entries that may be own ones is done, whatever the list
/// says (our own rule).
pub fn an_owner_can_always_mend_a_list()
    ensures reads { (room : Room) (caller : SubjectModel) (path : Path) (o : Object) →
        object_at room path ≡ Some o → is_owner caller (standing_of o) ≡ true → walk room caller path ≡ None →
        (effect room caller (GetList path)).reply ≡ Entries o.aclflag (list_of room path) }
    ensures writes { (room : Room) (caller : SubjectModel) (path : Path) (o : Object)
        (aclflag : ℕ) (entries : List EntryModel) →
        object_at room path ≡ Some o → is_owner caller (standing_of o) ≡ true → walk room caller path ≡ None →
        own_entries_fault (own_entries_of_setlist path aclflag entries) o.kind ≡ None →
        (effect room caller (SetList aclflag entries path)).reply ≡ Done }
{}

/// Where a caller may both write and read a file, a READ right after the WRITE gives the bytes
/// written, and right after an APPEND what was there with the new bytes behind it.
pub fn a_read_gives_what_was_written()
    ensures written { (room : Room) (caller : SubjectModel) (path : Path) (bytes : List ℕ) →
        (IsNotDone (effect room caller (Write bytes path)).reply → ⊥)
        → (IsNotDone (effect room caller (Read path)).reply → ⊥) →
        (effect (effect room caller (Write bytes path)).room caller (Read path)).reply ≡ Bytes bytes }
    ensures appended { (room : Room) (caller : SubjectModel) (path : Path) (bytes : List ℕ) →
        (IsNotDone (effect room caller (Append bytes path)).reply → ⊥)
        → (IsNotDone (effect room caller (Read path)).reply → ⊥) →
        (effect (effect room caller (Append bytes path)).room caller (Read path)).reply
        ≡ Bytes (bytes_at room path ++ bytes) }
{}

/// A RENAME moves a subtree: what stood at and below the old path stands at and below the new one,
/// nothing is left at the old one, and all else is as it was.
pub fn a_rename_moves_a_subtree()
    ensures moved { (room : Room) (caller : SubjectModel) (path to : Path) → IsRoom room →
        (IsNotDone (effect room caller (Rename path to)).reply → ⊥) →
        (rest : Path) → object_at (effect room caller (Rename path to)).room (to ++ rest)
        ≡ object_at room (path ++ rest) }
    ensures gone { (room : Room) (caller : SubjectModel) (path to : Path) → IsRoom room →
        (IsNotDone (effect room caller (Rename path to)).reply → ⊥) →
        (rest : Path) → object_at (effect room caller (Rename path to)).room (path ++ rest) ≡ None }
    ensures elsewhere { (room : Room) (caller : SubjectModel) (path to : Path) → IsRoom room →
        (IsNotDone (effect room caller (Rename path to)).reply → ⊥) →
        (other : Path) → is_at_or_below other path ≡ false → is_at_or_below other to ≡ false →
        object_at (effect room caller (Rename path to)).room other ≡ object_at room other }
{}

/// The list of an object is its own entries and then, where it follows, what the list of its folder
/// hands down to its kind. The root has its own entries alone. So a list depends on the object and the
/// folders above it, and on nothing else in the room.
pub fn a_list_is_own_entries_and_inherited_ones()
    ensures root { (room : Room) (o : Object) → object_at room [] ≡ Some o → list_of room [] ≡ o.own }
    ensures below { (room : Room) (path : Path) (name : Name) (o : Object)
        → object_at room (path ++ name ∷ []) ≡ Some o →
        list_of room (path ++ name ∷ [])
        ≡ o.own ++ (if follows o.aclflag then handed_down (list_of room path) o.kind else []) }
    ensures above { (room other : Room) (path : Path) →
        ((front rest : Path) → path ≡ front ++ rest → object_at room front ≡ object_at other front)
        → list_of room path ≡ list_of other path }
{}

/// The list of an object with the list flag PROTECTED is its own entries alone. So the rights on it are the same
/// wherever it stands, whatever the lists of folders say; and a RENAME, of it or of a folder above it, gives nobody a
/// right on it.
pub fn a_protected_list_stays_its_own()
    ensures own { (room : Room) (path : Path) (o : Object) → object_at room path ≡ Some o
        → has_flag o.aclflag protected_flag ≡ true → list_of room path ≡ o.own }
    ensures anywhere { (room other : Room) (path to : Path) (o : Object) (caller : SubjectModel) (right : ℕ) →
        object_at room path ≡ Some o → object_at other to ≡ Some o → has_flag o.aclflag protected_flag ≡ true →
        may room caller path right ≡ may other caller to right }
    ensures moved { (room : Room) (caller other : SubjectModel) (path to rest : Path) (o : Object) (right : ℕ) →
        IsRoom room → (IsNotDone (effect room other (Rename path to)).reply → ⊥) →
        object_at room (path ++ rest) ≡ Some o → has_flag o.aclflag protected_flag ≡ true →
        may (effect room other (Rename path to)).room caller (to ++ rest) right
        ≡ may room caller (path ++ rest) right }
{}

/// A folder's names are those of the objects in it, each with its kind, rising strictly by bytes.
pub fn a_folder_names_what_is_in_it()
    ensures names { (room : Room) (folder : Path) (name : Name) (kind : Kind) →
        Contains (children room folder) (name, kind)
        ↔ ((o : Object) × (object_at room (folder ++ name ∷ []) ≡ Some o) × (o.kind ≡ kind)) }
    ensures order { (room : Room) (folder : Path)
        → IsStrictlySortedBy name_cmp (map (λ (child : Name × Kind). child.0) (children room folder)) }
{}

/// What a caller may not see does not show in an answer: two rooms that look alike to a caller answer each of its
/// commands alike, and where they will look alike after its commands too, each of a list of them.
pub fn what_may_not_be_seen_does_not_show()
    ensures answer { (a b : Room) (caller : SubjectModel) (command : CommandModel) →
        IsLawful command → IsRoom a → IsRoom b → LooksAlike caller a b →
        (effect a caller command).reply ≡ (effect b caller command).reply }
    ensures answers { (a b : Room) (caller : SubjectModel) (commands : List CommandModel) →
        AllByRecursion IsLawful commands → IsRoom a → IsRoom b → StayAlike caller a b →
        replies_among a caller (map Own commands) ≡ replies_among b caller (map Own commands) }
{}

/// What a caller sees, it is told: each thing that a sight has, but for whether a number is left, is the answer to one
/// of its commands. So nothing is seen without its right.
pub fn what_is_seen_is_told()
    ensures fault { (room : Room) (caller : SubjectModel) (path : Path) (fault : Refusal) →
        view room caller path ≡ Err fault → (effect room caller (Stat path)).reply ≡ NotDone fault }
    ensures absence { (room : Room) (caller : SubjectModel) (path : Path) → view room caller path ≡ Ok None →
        (effect room caller (Stat path)).reply ≡ NotDone (refusal_without_place NoEnt) }
    ensures there { (room : Room) (caller : SubjectModel) (path : Path) (s : Sight) →
        IsRoom room → view room caller path ≡ Ok (Some s) → IsSightTold room caller path s }
{}

/// Rooms that look alike to a caller, and will after its commands, do so after each of its commands. After commands
/// that change nothing but bytes, rooms that look alike do.
pub fn rooms_that_look_alike_stay_alike()
    ensures every { (a b : Room) (caller : SubjectModel) (command : CommandModel) →
        IsLawful command → IsRoom a → IsRoom b → StayAlike caller a b →
        StayAlike caller (effect a caller command).room (effect b caller command).room }
    ensures bytes { (a b : Room) (caller : SubjectModel) (command : CommandModel) →
        IsLawful command → changes_bytes_alone command ≡ true → IsRoom a → IsRoom b → LooksAlike caller a b →
        LooksAlike caller (effect a caller command).room (effect b caller command).room }
{}

/// What others do does not show to a caller that cannot see it: its commands are answered as if the others had done
/// nothing. So a caller does not see what another writes to a file of which it may see neither bytes nor size, if it
/// can neither remove, nor set list or owner of, the file and the folders above it that it reaches. Nor does it see any
/// command at all at paths out of its sight; of one that makes an object that counts where the caller may add nowhere.
pub fn what_others_do_unseen_does_not_show()
    ensures answers { (room : Room) (caller : SubjectModel) (turns : List Turn) →
        IsRoom room → OthersUnseen caller room turns →
        replies_among room caller turns ≡ replies_among room caller (own_turns turns) }
    ensures written { (room : Room) (caller other : SubjectModel) (bytes : List ℕ) (path : Path) →
        BytesUnseen caller room path → LooksAlike caller room (effect room other (Write bytes path)).room
        × (HasNoPower caller room path → StayAlike caller room (effect room other (Write bytes path)).room) }
    ensures appended { (room : Room) (caller other : SubjectModel) (bytes : List ℕ) (path : Path) →
        BytesUnseen caller room path → LooksAlike caller room (effect room other (Append bytes path)).room
        × (HasNoPower caller room path → StayAlike caller room (effect room other (Append bytes path)).room) }
    ensures done { (room : Room) (caller other : SubjectModel) (command : CommandModel) →
        IsLawful command → IsRoom room → IsOutOfSight caller room (paths_of command).0 →
        IsOutOfSight caller room (paths_of command).1 →
        ((effect room other command).room.left ≡ room.left) ⊎ AddsNowhere caller room →
        StayAlike caller room (effect room other command).room }
{}

/// What a list hides does not show: neither a SETLIST nor a CHOWN of anybody's shows to a caller that sees no list at
/// and below the path, nor owner, group and list flags at it, and keeps its rights there.
pub fn a_list_unseen_does_not_show()
    ensures listed { (room : Room) (caller other : SubjectModel) (aclflag : ℕ) (entries : List EntryModel)
        (path : Path) →
        ListUnseen caller room (effect room other (SetList aclflag entries path)).room path →
        LooksAlike caller room (effect room other (SetList aclflag entries path)).room }
    ensures given { (room : Room) (caller other : SubjectModel) (group owner : List ℕ) (path : Path) →
        ListUnseen caller room (effect room other (Chown group owner path)).room path →
        LooksAlike caller room (effect room other (Chown group owner path)).room }
{}

/// Bytes reach answers by READ alone. With other bytes in its files and in what is to be written, as many as before, a
/// room does the same and answers the same, but for those bytes; and only READ answers bytes, by READ_DATA.
pub fn bytes_reach_answers_by_read_alone()
    ensures room { (new : ℕ → ℕ) (room : Room) (caller : SubjectModel) (command : CommandModel) →
        (effect (room_with new room) caller (command_with new command)).room
        ≡ room_with new (effect room caller command).room }
    ensures reply { (new : ℕ → ℕ) (room : Room) (caller : SubjectModel) (command : CommandModel) →
        (effect (room_with new room) caller (command_with new command)).reply
        ≡ reply_with new (effect room caller command).reply }
    ensures read { (room : Room) (caller : SubjectModel) (command : CommandModel) (bytes : List ℕ) →
        (effect room caller command).reply ≡ Bytes bytes →
        (path : Path) × (command ≡ Read path) × (may room caller path read_data ≡ true) }
{}

/// How many numbers are left shows by ROOM_FULL alone. With more of them a room answers each command alike, and goes on
/// to the same room with as many more, unless it answers ROOM_FULL.
pub fn what_is_left_shows_by_room_full_alone()
    ensures { (more : ℕ) (room : Room) (caller : SubjectModel) (command : CommandModel) →
        IsRoomFull (effect room caller command).reply
        ⊎ (((effect (with_more more room) caller command).reply ≡ (effect room caller command).reply)
        × ((effect (with_more more room) caller command).room ≡ with_more more (effect room caller command).room)) }
{}

/// A command of anybody's changes little of what a caller sees at paths neither at nor below those that it names, and,
/// where the caller cannot reach these, no more at and below them: above them names and how many they are, how deep a
/// folder goes, and whether a number is left (`above`); names only in the folder of one of them (`higher`); and at all
/// other paths only whether a number is left (`aside`).
pub fn a_command_shows_at_its_paths()
    ensures above { (room : Room) (caller other : SubjectModel) (command : CommandModel) (path : Path) →
        IsLawful command → IsRoom room → IsOff caller room (paths_of command) path →
        view_less but_names (effect room other command).room caller path ≡ view_less but_names room caller path }
    ensures higher { (room : Room) (caller other : SubjectModel) (command : CommandModel) (path : Path) →
        IsLawful command → IsRoom room → IsOff caller room (paths_of command) path →
        HoldsNeither (paths_of command) path →
        view_less but_depth (effect room other command).room caller path ≡ view_less but_depth room caller path }
    ensures aside { (room : Room) (caller other : SubjectModel) (command : CommandModel) (path : Path) →
        IsLawful command → IsRoom room → IsOff caller room (paths_of command) path →
        IsAboveNeither (paths_of command) path →
        view_less but_full (effect room other command).room caller path ≡ view_less but_full room caller path }
{}

/// What others make, remove or move in folders of which a caller sees neither the names nor how many they are shows
/// little: but for paths at and below theirs that the caller can reach, only how deep a folder goes, and whether a
/// number is left (`unlisted`). Where these two do not show, nothing does (`elsewhere`). So if the caller can reach no
/// path of theirs, the rooms look alike to it; and if it can but does not name one, it is answered as before,
/// FOLDER_FULL aside.
pub fn names_unseen_do_not_show()
    ensures unlisted { (room : Room) (caller other : SubjectModel) (command : CommandModel) (path : Path) →
        IsLawful command → IsRoom room → IsUnlisted caller room (paths_of command).0 →
        IsUnlisted caller room (paths_of command).1 → IsOff caller room (paths_of command) path →
        view_less but_depth (effect room other command).room caller path ≡ view_less but_depth room caller path }
    ensures elsewhere { (room : Room) (caller other : SubjectModel) (command : CommandModel) →
        IsLawful command → IsRoom room → IsUnlisted caller room (paths_of command).0 →
        IsUnlisted caller room (paths_of command).1 →
        ((front : Path) →
        (is_at_or_below (paths_of command).0 front || is_at_or_below (paths_of command).1 front) ≡ true
        → walk room caller front ≡ None → may_remove room caller front ≡ true →
        depth_in front (effect room other command).room.objects ≡ depth_in front room.objects) →
        (is_full (effect room other command).room ≡ is_full room) ⊎ AddsNowhere caller room →
        ((path : Path) → IsOff caller room (paths_of command) path →
        view (effect room other command).room caller path ≡ view room caller path)
        × (is_none (walk room caller (paths_of command).0) ≡ false →
        is_none (walk room caller (paths_of command).1) ≡ false →
        LooksAlike caller room (effect room other command).room)
        × ((own : CommandModel) → IsLawful own →
        ((folder : Path) → walk room caller folder ≡ None → may_add room caller folder ≡ true →
        check_folder_full (effect room other command).room folder ≡ check_folder_full room folder) →
        IsOff caller room (paths_of command) (paths_of own).0 → IsOff caller room (paths_of command) (paths_of own).1 →
        (effect (effect room other command).room caller own).reply ≡ (effect room caller own).reply) }
{}
