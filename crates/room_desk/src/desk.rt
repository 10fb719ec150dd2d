//! The desk: takes events, and answers each.
ghost use Rattle.std.specs.Prelude.{◌≡◌, ◌≢◌, List, [], ◌∷◌, ◌++◌, map, IfOk, OnErr, Err};
ghost use Rattle.room_records.specs.Room.{Room};
ghost use Rattle.room_records.specs.Shelf.{ShelfFrame};
ghost use Rattle.room_wire.specs.Asks.EventModel.{event_model};
ghost use Rattle.room_wire.specs.declared.answers.code.Code.TheVariants.{Delay};
ghost use Rattle.room_wire.specs.Serving.Outputs.{InTurn};
ghost use Rattle.room_desk.specs.AnswerModel.{AnswerModel, Refused, answer_model};
ghost use Rattle.room_desk.specs.History.{History};
ghost use Rattle.room_desk.specs.Representation.{StandsFor, WasAllowed};
ghost use Rattle.room_desk.specs.Serving.{EventAnswered, Run};
ghost use Rattle.room_desk.specs.Trying.{EventTried};

use crate::requests::{SlotRequest, request};
use crate::serving::Workspace;
use crate::sessions::{close, open};
use room_records::{Shelf, ShelfFault};
use room_wire::{Answer, Code, Event};
use std::alloc::{AllocError, Global};
use std::marker::Model;

/// Answers events over a shelf.
pub struct Desk<S: Shelf> {
    pub(crate) alloc: Global,
    pub(crate) shelf: S,
    /// What the last stream left for the next.
    pub(crate) workspace: Option<Workspace>,
}

impl<S: Shelf> Model for Desk<S> {
    ghost Value = { S };

    ghost view = { λ d. d.shelf };
}

impl<S: Shelf> Desk<S> {
    pub fn new(alloc: Global, shelf: S) -> Desk<S>
        ensures { result ≡ shelf }
    {
        Desk {
            alloc,
            shelf,
            workspace: None,
        }
    }

    pub fn into_shelf(self) -> S
        ensures { result ≡ self }
    {
        let Desk {
            alloc: _,
            shelf,
            workspace: _,
        } = self;
        shelf
    }

    /// Answers one event as the history says, or gives up with nothing changed while the store is available.
    fn try_event(&mut self, event: &Event) -> Result<Answer, ShelfFault>
        ensures { EventTried (event_model event.now) (S.view self.old) (S.view self.new) result }
    {
        match event {
            Event::Open {
                subject,
                sid,
                slots,
            } => open(self.alloc, &mut self.shelf, subject, sid, *slots),
            Event::Close { subject, sid } => close(self.alloc, &mut self.shelf, subject, sid),
            Event::Slot {
                subject,
                sid,
                slot,
                seq,
                command,
                keep,
            } => {
                let asked = SlotRequest {
                    subject,
                    sid,
                    slot: *slot,
                    seq: *seq,
                    command,
                    keep: *keep,
                };
                request(self.alloc, &mut self.shelf, &asked)
            }
        }
    }

    /// Answers one event: as the history says, or DELAY. DELAY changes nothing while the store is there; of one that a
    /// fault shut, an open may find the event's change. DELAY comes where memory was refused, or where the shelf failed
    /// and counted it; with any other answer no failure was counted. Where the store is intact, any other answer means
    /// that it is still available; of a store that a fault has shut no records are told, and each event is answered
    /// DELAY. `allowed` is a law (`an_accepted_request_was_allowed`), repeated so that the headline stands in one
    /// place.
    pub fn handle(&mut self, event: &Event) -> Answer
        ensures answered { EventAnswered S.view self.old (event_model event.now) (answer_model result) self.new }
        ensures allowed { (start : Room) (past : History) → WasAllowed start past (event_model event.now) }
    {
        match self.try_event(event) {
            Ok(answer) => answer,
            Err(_) => Answer::Refused(Code::Delay),
        }
    }

    /// Answers events in turn, each as `handle` does (`each`). An `Err` changes nothing. Where the last answer is not
    /// DELAY, an intact store is still available. `frame`, `alive` and `run` follow from `each` answer in turn, and
    /// stand here so that a caller needs no induction.
    pub fn run(&mut self, events: &[Event]) -> Result<Vec<Answer>, AllocError>
        ensures frame { ShelfFrame (S.view self.old) (S.view self.new) }
        ensures alive { (S.view self.new).is_intact
            → IfOk result (λ answers. (before : List AnswerModel) (last : AnswerModel) →
            map answer_model answers.items ≡ before ++ last ∷ []
            → last ≢ Refused Delay → (S.view self.new).is_available) }
        ensures run { (S.view self.new).is_intact → (start : Room) (past : History)
            → StandsFor start past (S.view self.old) →
            IfOk result (λ answers. (next : History)
            × Run start past (map event_model events.now) (map answer_model answers.items) next
            × StandsFor start next (S.view self.new)) }
        ensures each { IfOk result (λ answers. InTurn (EventAnswered S.view)
            self.old (map event_model events.now) (map answer_model answers.items) self.new) }
        ensures err { OnErr result (self.new ≡ self.old) }
    {
        let mut answers = Vec::with_capacity(self.alloc, events.len())?;
        for event in events {
            let Ok(()) = answers.push(self.handle(event)) else {
                unreachable!()
            };
        }
        Ok(answers)
    }
}
