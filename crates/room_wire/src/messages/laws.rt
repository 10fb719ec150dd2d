//! Laws of messages and streams.
ghost use Rattle.std.specs.Prelude.{◌≡◌, ◌++◌, ℕ, List};
ghost use Rattle.room_wire.specs.Messages.MessageModel.{MessageModel, Reads};
ghost use Rattle.room_wire.specs.Messages.Stream.{Splits};

/// No message is a proper front of another, whatever bytes follow.
pub fn message_is_one()
    ensures { (bytes more : List ℕ) (m k : MessageModel) (r q : List ℕ) →
        Reads bytes m r → Reads (bytes ++ more) k q → (m ≡ k) × (r ++ more ≡ q) }
{}

/// A stream splits in one way.
pub fn split_is_one()
    ensures { (bytes : List ℕ) (ms ks : List MessageModel) (r q : List ℕ) →
        Splits bytes ms r → Splits bytes ks q → (ms ≡ ks) × (r ≡ q) }
{}
