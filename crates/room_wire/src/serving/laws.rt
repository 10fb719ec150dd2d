//! Laws of streams that were served.
ghost use Rattle.std.specs.Prelude.{ℕ, List, Option};
ghost use Rattle.room_wire.specs.Serving.Ends.{Wrote, Answers};
ghost use Rattle.room_wire.specs.declared.serving.stop.Why.{Why};
ghost use Rattle.room_wire.specs.Messages.MessageModel.{MessageModel};
ghost use Rattle.room_wire.specs.Messages.Stream.{Splits};

/// The messages that were answered are all of the split, or its first ones where a write failed.
pub fn answered_are_of_the_split()
    ensures { (bytes rest out q : List ℕ) (ms ks : List MessageModel) (after old new : Option (List ℕ)) (why : Why) →
        Wrote bytes rest ms out after old new why → Splits bytes ks q → Answers ms ks why }
{}
