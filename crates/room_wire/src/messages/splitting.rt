//! The split of bytes that are there whole.
ghost use Rattle.std.specs.Prelude.{ℕ, List};
ghost use Rattle.room_wire.specs.Messages.MessageModel.{MessageModel};
ghost use Rattle.room_wire.specs.Messages.Stream.{Splits};

use crate::messages::last::is_last;
use crate::messages::message::Take;
use crate::messages::taking::take_message;

/// Goes over the messages at the front of the bytes, up to a last message or until no front of the
/// rest is one, and gives the rest. So every stream has a split.
pub fn rest_of_stream(bytes: &[u8]) -> &[u8]
    ensures { (ms : List MessageModel) × Splits bytes.now ms result.now }
{
    let mut rest = bytes;
    'messages: loop {
        let (size, last) = match take_message(rest) {
            Take::Whole(message) => (message.size, is_last(&message)),
            Take::More => return rest,
            Take::Bad => return rest,
        };
        rest = &rest[size..];
        if last {
            return rest;
        }
    }
}
