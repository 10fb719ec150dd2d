//! Laws of runs.
ghost use Rattle.std.specs.Prelude.{◌≡◌, ℕ, Bool, List, ◌++◌};
ghost use Rattle.room_acl.specs.SubjectModel.{SubjectModel};
ghost use Rattle.room_records.specs.Room.{Room, IsRoom};
ghost use Rattle.room_wire.specs.Asks.AskOf.{ask_of};
ghost use Rattle.room_wire.specs.Asks.EventModel.{EventModel};
ghost use Rattle.room_wire.specs.Messages.MessageModel.{MessageModel};
ghost use Rattle.room_wire.specs.Serving.Outputs.{Writes};
ghost use Rattle.room_desk.specs.AlikePasts.{AlikePasts, is_own, asks_own, told};
ghost use Rattle.room_desk.specs.AnswerModel.{AnswerModel};
ghost use Rattle.room_desk.specs.History.{History};
ghost use Rattle.room_desk.specs.Serving.{IsRun, Run};

/// Two streams that are served in turn are one run, with one output after the other.
pub fn runs_in_turn_are_one_run()
    ensures { (users : List SubjectModel) (start : Room)
        (past mid next : History) (ms ks : List MessageModel) (a b : List ℕ) →
        IsRun users start past ms a mid → IsRun users start mid ks b next
        → IsRun users start past (ms ++ ks) (a ++ b) next }
{}

/// What a caller may not see of a run does not show in what the run tells it. Two runs lead from pasts that differ in
/// nothing that the caller sees to such pasts: the answers to the caller's own events are the same, in their order.
/// `messages` says so of two streams, byte for byte: the output of each is that of answers, one for each message, and
/// those to messages that ask events of the caller's own are the same. Outside is DELAY, which an event may be answered
/// in one of them alone.
pub fn what_may_not_be_seen_of_a_run_does_not_show()
    ensures events { (caller : SubjectModel) (is_own_name : List ℕ → Bool) (a b : Room)
        (past other next last : History) (events events' : List EventModel) (answers answers' : List AnswerModel) →
        IsRoom a → IsRoom b → AlikePasts caller is_own_name a b past other →
        Run a past events answers next → Run b other events' answers' last →
        AlikePasts caller is_own_name a b next last →
        told (is_own caller is_own_name) events answers ≡ told (is_own caller is_own_name) events' answers' }
    ensures messages { (caller : SubjectModel) (is_own_name : List ℕ → Bool) (a b : Room)
        (past other next last : History) (users users' : List SubjectModel) (ms ks : List MessageModel)
        (out put : List ℕ) →
        IsRoom a → IsRoom b → AlikePasts caller is_own_name a b past other →
        IsRun users a past ms out next → IsRun users' b other ks put last →
        AlikePasts caller is_own_name a b next last →
        (answers answers' : List AnswerModel) × Writes ms answers out × Writes ks answers' put
        × (told (λ m. asks_own caller is_own_name (ask_of users m)) ms answers
        ≡ told (λ m. asks_own caller is_own_name (ask_of users' m)) ks answers') }
{}
