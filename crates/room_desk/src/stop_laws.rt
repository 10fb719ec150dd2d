//! Laws of what a stop leaves after several events, and of an event that is sent again after it.
ghost use Rattle.std.specs.Prelude.{◌≡◌, ◌⊎◌, ℕ, true, false, List, [], ◌∷◌, Ok};
ghost use Rattle.room_acl.specs.SubjectModel.{SubjectModel};
ghost use Rattle.room_records.specs.Room.{Room};
ghost use Rattle.room_records.specs.Shelf.{LeavesNew};
ghost use Rattle.room_wire.specs.Asks.AskOf.{Event, ask_of};
ghost use Rattle.room_wire.specs.Asks.EventModel.{EventModel};
ghost use Rattle.room_wire.specs.declared.answers.code.Code.TheVariants.{Delay, RetryUncached};
ghost use Rattle.room_wire.specs.Messages.MessageModel.{MessageModel};
ghost use Rattle.room_wire.specs.Serving.Outputs.{InTurn, Outputs};
ghost use Rattle.room_desk.specs.AnswerModel.{AnswerModel, Refused};
ghost use Rattle.room_desk.specs.History.{History, answer_to, leaves_no_reply};
ghost use Rattle.room_desk.specs.Representation.{RepresentsHistory, StandsFor};
ghost use Rattle.room_desk.specs.Serving.{EventAnswered, MayAnswer, Run};
ghost use Rattle.room_desk.specs.Stops.{StandsInDoubt, in_doubt, Doubt, no_doubt, AnswersInDoubt, AreDelayed};

use room_records::Shelf;

/// While the store is there, a stop leaves rows that stand for the history, and no others (`there`). After events that
/// were answered in turn from a store that was there, it leaves those, or, where the last answers were DELAY, rows that
/// stand for the history with one of these events more, which is in doubt (`run`). `stream` says the same of the
/// messages of a stream. Only the event in which a fault shut the store is in doubt: where the store was there before
/// it and is not after it, it and all events after it are answered DELAY, and a stop leaves rows that stand for the
/// history or for it with that event (`shut`; `stream_shut` of messages).
pub fn a_stop_leaves_what_was_answered<S: Shelf>()
    ensures there { (s : S) (start : Room) (past : History) → (S.view s).is_available →
        StandsFor start past (S.view s) → LeavesNew (S.view s) (λ left. RepresentsHistory start left past) }
    ensures run { (before after : S) (events : List EventModel) (answers : List AnswerModel)
        (start : Room) (past : History) → (S.view before).is_available → StandsFor start past (S.view before) →
        InTurn (EventAnswered S.view) before events answers after → (S.view after).is_intact →
        (next : History) × Run start past events answers next × StandsFor start next (S.view after)
        × LeavesNew (S.view after) (StandsInDoubt start next (in_doubt [] events answers)) }
    ensures stream { (users : List SubjectModel) (before after : S) (ms : List MessageModel) (out : List ℕ)
        (start : Room) (past : History) → (S.view before).is_available → StandsFor start past (S.view before) →
        Outputs (MayAnswer S.view users) before ms out after → (S.view after).is_intact →
        (next : Doubt) × Outputs (AnswersInDoubt users start) (no_doubt past) ms out next
        × StandsFor start next.past (S.view after)
        × LeavesNew (S.view after) (StandsInDoubt start next.past next.doubted) }
    ensures shut { (before mid after : S) (event : EventModel) (answered : AnswerModel)
        (events : List EventModel) (answers : List AnswerModel) (start : Room) (past : History) →
        (S.view before).is_available → StandsFor start past (S.view before) →
        EventAnswered S.view before event answered mid → ((S.view mid).is_available → ⊥) →
        InTurn (EventAnswered S.view) mid events answers after → (S.view after).is_intact →
        AreDelayed (answered ∷ answers) × StandsFor start past (S.view after)
        × LeavesNew (S.view after) (StandsInDoubt start past (event ∷ [])) }
    ensures stream_shut { (users : List SubjectModel) (before mid after : S)
        (m : MessageModel) (event : EventModel) (answered : AnswerModel)
        (ms : List MessageModel) (out : List ℕ) (start : Room) (past : History) →
        (S.view before).is_available → StandsFor start past (S.view before) → ask_of users m ≡ Ok (Event event) →
        MayAnswer S.view users before m answered mid → ((S.view mid).is_available → ⊥) →
        Outputs (MayAnswer S.view users) mid ms out after → (S.view after).is_intact →
        (answered ≡ Refused Delay) × StandsFor start past (S.view after)
        × LeavesNew (S.view after) (StandsInDoubt start past (event ∷ [])) }
{}

/// What a stop leaves is laid out, after events that were answered in turn from a store that was there, and after the
/// messages of a stream (`stream`): also once a fault has shut the store.
pub fn what_a_stop_leaves_is_laid_out<S: Shelf>()
    ensures run { (before after : S) (events : List EventModel) (answers : List AnswerModel)
        (start : Room) (past : History) → (S.view before).is_available → StandsFor start past (S.view before) →
        InTurn (EventAnswered S.view) before events answers after → (S.view after).is_intact →
        (S.view after).leaves_laid_out }
    ensures stream { (users : List SubjectModel) (before after : S) (ms : List MessageModel) (out : List ℕ)
        (start : Room) (past : History) → (S.view before).is_available → StandsFor start past (S.view before) →
        Outputs (MayAnswer S.view users) before ms out after → (S.view after).is_intact →
        (S.view after).leaves_laid_out }
{}

/// The answers to events tell to which history they went: an answer by a history is never DELAY.
pub fn a_run_goes_to_one_history()
    ensures { (start : Room) (past a b : History) (events : List EventModel) (answers : List AnswerModel) →
        Run start past events answers a → Run start past events answers b → a ≡ b }
{}

/// An event is sent again after a stop, where the rows that were found stand for the history without it or with it. It
/// is answered as it would have been, and the rows then stand for the history with it once; or it is answered DELAY,
/// and the rows stand for either as before (`kept`). A request whose reply is not kept may also be answered
/// RETRY_UNCACHED, where the rows that were found stand for the history with it: they stand for it after as well, and
/// so the caller knows that it was run (`uncached`).
pub fn a_request_sent_again_after_a_stop_acts_once<S: Shelf>()
    ensures kept { (found after : S) (event : EventModel) (answered : AnswerModel) (start : Room) (past : History) →
        EventAnswered S.view found event answered after → (S.view after).is_intact →
        leaves_no_reply past event ≡ false →
        StandsFor start past (S.view found) ⊎ StandsFor start (event ∷ past) (S.view found) →
        ((answered ≡ answer_to start past event) × StandsFor start (event ∷ past) (S.view after))
        ⊎ ((answered ≡ Refused Delay)
        × (StandsFor start past (S.view after) ⊎ StandsFor start (event ∷ past) (S.view after))) }
    ensures uncached { (found after : S) (event : EventModel) (answered : AnswerModel)
        (start : Room) (past : History) →
        EventAnswered S.view found event answered after → (S.view after).is_intact →
        leaves_no_reply past event ≡ true →
        StandsFor start past (S.view found) ⊎ StandsFor start (event ∷ past) (S.view found) →
        ((answered ≡ answer_to start past event) × StandsFor start (event ∷ past) (S.view after))
        ⊎ (((answered ≡ Refused RetryUncached) × StandsFor start (event ∷ past) (S.view found)
        × StandsFor start (event ∷ past) (S.view after))
        ⊎ ((answered ≡ Refused Delay)
        × (StandsFor start past (S.view after) ⊎ StandsFor start (event ∷ past) (S.view after)))) }
{}
