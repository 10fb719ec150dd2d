//! Laws of a client that asks until it is answered: each of its commands runs once.
ghost use Rattle.std.specs.Prelude.{◌≡◌, ◌≢◌, ◌⊎◌, ℕ, suc, ◌+◌, ◌^◌, ◌<◌, true, false, List, ◌∷◌, [], ◌++◌};
ghost use Rattle.std.specs.Prelude.{length, Option};
ghost use Rattle.std.specs.List.{Contains};
ghost use Rattle.room_records.specs.Room.{Room};
ghost use Rattle.room_commands.specs.CommandModel.{CommandModel};
ghost use Rattle.room_wire.specs.declared.answers.code.Code.TheVariants.{RetryUncached, SeqMisordered, SeqFalseRetry};
ghost use Rattle.room_wire.specs.Asks.EventModel.{EventModel};
ghost use Rattle.room_wire.specs.Forms.Texts.{command_text};
ghost use Rattle.room_desk.specs.AnswerModel.{AnswerModel, Reply, Refused};
ghost use Rattle.room_desk.specs.History.{History, Accepted, accepted, original_reply, answer_to};
ghost use Rattle.room_desk.specs.Serving.{Run, MayAnswer};
ghost use Rattle.room_desk.specs.Stops.{in_doubt};
ghost use Rattle.room_desk.specs.Client.{Lane, HoldsSlot, IsAsk, IsUsed, Asks, ran, answer_again, Attempt, is_lost};
ghost use Rattle.room_desk.specs.Client.{Meets, Taken, HearsLess, attempts_of, Client, idle, KeepsRule};
ghost use Rattle.room_desk.specs.Client.{HasDone, IsTold};
ghost use Rattle.room_desk.specs.ClientRuns.{LeadsBy, attempts_in};
ghost use Rattle.room_acl.specs.SubjectModel.{SubjectModel};
ghost use Rattle.room_wire.specs.Messages.MessageModel.{MessageModel};
ghost use Rattle.room_wire.specs.Serving.Outputs.{InTurn};

use room_records::Shelf;

/// A slot whose user asks for commands in turn, each with the next number, has run each of them once, in their order,
/// whatever others did, and however often and late the numbers came again (`once`). The first request for a command
/// gets its reply (`first`), and each one after it the same, or RETRY_UNCACHED where the first did not ask that its
/// reply be kept (`again`). Another command with that number is a false retry (`other`), and a number before it is
/// SEQ_MISORDERED (`late`): neither runs.
pub fn requests_in_turn_run_once()
    ensures once { (lane : Lane) (past later : History) (asked : List CommandModel) → HoldsSlot lane past →
        Asks lane (length (ran lane past)) later asked → length asked < 2 ^ 32 →
        HoldsSlot lane (later ++ past) × (ran lane (later ++ past) ≡ asked ++ ran lane past) }
    ensures first { (start : Room) (lane : Lane) (past later : History) (asked : List CommandModel)
        (command : CommandModel) (event : EventModel) → HoldsSlot lane past →
        Asks lane (length (ran lane past)) later asked → length asked < 2 ^ 32 →
        IsAsk lane (length (ran lane past) + length asked) command event →
        (a : Accepted) × (earlier : List Accepted)
        × (accepted (event ∷ (later ++ past)) lane.sid lane.slot ≡ a ∷ earlier) × (a.request.command ≡ command)
        × (answer_to start (later ++ past) event ≡ Reply (original_reply start a)) }
    ensures again { (start : Room) (lane : Lane) (past later : History) (before : List CommandModel)
        (command : CommandModel) (event : EventModel) → HoldsSlot lane past →
        Asks lane (length (ran lane past)) later (command ∷ before) → suc (length before) < 2 ^ 32 →
        IsAsk lane (length (ran lane past) + length before) command event →
        (a : Accepted) × (earlier : List Accepted)
        × (accepted (event ∷ (later ++ past)) lane.sid lane.slot ≡ a ∷ earlier) × (a.request.command ≡ command)
        × (answer_to start (later ++ past) event ≡ answer_again start a) }
    ensures other { (start : Room) (lane : Lane) (past later : History) (before : List CommandModel)
        (command asked : CommandModel) (event : EventModel) → HoldsSlot lane past →
        Asks lane (length (ran lane past)) later (command ∷ before) → suc (length before) < 2 ^ 32 →
        command_text asked ≢ command_text command →
        IsAsk lane (length (ran lane past) + length before) asked event →
        answer_to start (later ++ past) event ≡ Refused SeqFalseRetry }
    ensures late { (start : Room) (lane : Lane) (past later : History) (before : List CommandModel)
        (command : CommandModel) (event : EventModel) → HoldsSlot lane past →
        Asks lane (length (ran lane past)) later (command ∷ before) → suc (length before) < 2 ^ 32 →
        IsUsed lane (length (ran lane past)) (length before) event →
        answer_to start (later ++ past) event ≡ Refused SeqMisordered }
{}

/// A client that asks until it is answered acts once, whatever others do and wherever it stops. It asks with one number
/// until it is told that the command ran, and only then with the next. Then the commands of which it was told that have
/// run, each once and in their order, and nothing else in its slot, save perhaps one of those that it asked for since,
/// once (`did`). Any answer but DELAY tells: the reply of that one run; or RETRY_UNCACHED, where it ran and its reply
/// was not to be kept; or a false retry, where in its place another ran that was asked for with the same number
/// (`told`).
pub fn a_client_that_asks_until_it_is_answered_acts_once()
    ensures did { (start : Room) (lane : Lane) (past next : History) (sent : List Attempt) (client : Client) →
        HoldsSlot lane past → KeepsRule lane (length (ran lane past)) idle sent client → Taken start past sent next →
        suc (length client.done) < 2 ^ 32 →
        HasDone lane client past next }
    ensures told { (start : Room) (lane : Lane) (past mid next : History) (sent : List Attempt) (client : Client)
        (last : Attempt) (command : CommandModel) → HoldsSlot lane past →
        KeepsRule lane (length (ran lane past)) idle sent client → Taken start past sent mid →
        IsAsk lane (length (ran lane past) + length client.done) command last.event → Meets start mid last next →
        is_lost last.told ≡ false → suc (length client.done) < 2 ^ 32 →
        IsTold lane start (length (ran lane past)) client next command last.told }
{}

/// The attempts of that law are what a room does: a run (`run`); a run with an event more that is in doubt, as after a
/// stop (`doubt`); several in turn (`turn`); and any of these where answers were lost on the way (`lost`).
pub fn runs_and_stops_take_attempts()
    ensures run { (start : Room) (past next : History) (events : List EventModel) (answers : List AnswerModel) →
        Run start past events answers next → Taken start past (attempts_of events answers) next }
    ensures doubt { (start : Room) (past next : History) (events : List EventModel) (answers : List AnswerModel)
        (event : EventModel) → Run start past events answers next → Contains (in_doubt [] events answers) event →
        Taken start past (attempts_of events answers) (event ∷ next) }
    ensures turn { (start : Room) (past mid next : History) (sent more : List Attempt) →
        Taken start past sent mid → Taken start mid more next → Taken start past (sent ++ more) next }
    ensures lost { (start : Room) (past next : History) (sent heard : List Attempt) →
        HearsLess sent heard → Taken start past sent next → Taken start past heard next }
{}

/// Messages that are answered in turn from a store that is there are such attempts, and a stop after them leaves rows
/// of a history to which they lead.
pub fn messages_lead_where_their_attempts_do<S: Shelf>()
    ensures { (users : List SubjectModel) (before after : S) (ms : List MessageModel) (answers : List AnswerModel) →
        (S.view before).is_available → InTurn (MayAnswer S.view users) before ms answers after →
        (S.view after).is_intact → LeadsBy S.view (attempts_in users ms answers) before after }
{}
