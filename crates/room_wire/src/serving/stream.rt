//! Serving messages over a reader and a writer.
ghost use Rattle.std.specs.Prelude.{◌≡◌, ◌+◌, ◌-◌, ◌^◌, ℕ, List, [], min, length, IfOk, IfErr};
ghost use Rattle.room_wire.specs.Messages.MessageModel.{MessageModel};
ghost use Rattle.room_wire.specs.Serving.Outputs.{AnswersOne, Outputs, Rounds};
ghost use Rattle.room_wire.specs.Serving.Ends.{ConsumesMany, Serves, Refuses};

use crate::answers::answer::Answer;
use crate::answers::code::Code;
use crate::answers::sending::send_answer;
use crate::messages::last::is_last;
use crate::messages::message::{Message, Take};
use crate::messages::taking::take_message;
use crate::serving::buffers::Buffers;
use crate::serving::input::Input;
use crate::serving::service::Service;
use crate::serving::stop::{RoundsEnd, ServeEnd, Why};
use std::io::{Read, Write};

/// Answers one message.
fn answer_one<C, S: Service<C>, W: Write>(
    service: &mut S,
    context: &C,
    message: &Message<'_>,
    last: bool,
    output: &mut Vec<u8>,
    writer: &mut W,
) -> bool
    ensures { AnswersOne (S.may_answer context.now) service.old service.new message.now last
        (W.contents writer.old) (W.contents writer.new) result }
{
    let answer = service.answer(context, message);
    send_answer(writer, output, &answer, last)
}

/// Answers the messages among the bytes at hand, one after another, and counts them.
fn answer_all<C, S: Service<C>, W: Write>(
    service: &mut S,
    context: &C,
    input: &mut Input,
    output: &mut Vec<u8>,
    writer: &mut W,
    start: u64,
) -> (RoundsEnd, u64)
    ensures { (ms : List MessageModel) × (out : List ℕ)
        × Rounds input.old input.new (W.contents writer.old) (W.contents writer.new) ms out result.0
        × Outputs (S.may_answer context.now) service.old ms out service.new
        × (result.1 ≡ min (start + length ms) (2 ^ 64 - 1)) }
{
    let mut count = start;
    'rounds: loop {
        let (size, last, sent) = match take_message(input.bytes()) {
            Take::Whole(message) => {
                let last = is_last(&message);
                let sent = answer_one(service, context, &message, last, output, writer);
                (message.size, last, sent)
            }
            Take::More => return (RoundsEnd::NeedsMore, count),
            Take::Bad => return (RoundsEnd::Broken, count),
        };
        input.take(size);
        count = count.saturating_add(1);
        if !sent {
            return (RoundsEnd::NotWritten, count);
        }
        if last {
            return (RoundsEnd::Last, count);
        }
    }
}

/// The end where no message can come any more: the answer 40, once.
fn refuse<W: Write>(output: &mut Vec<u8>, writer: &mut W, count: u64) -> ServeEnd
    ensures { Refuses (W.contents writer.old) (W.contents writer.new) count result }
{
    let sent = send_answer(writer, output, &Answer::Refused(Code::BadHttp), true);
    let why = if sent {
        Why::BadMessage
    } else {
        Why::WriteFailed
    };
    ServeEnd { why, count }
}

/// Serves over buffers that are lent. An error, with the count so far, comes where 2^64 - 1 bytes or more were read.
fn serve_with<C, S: Service<C>, R: Read, W: Write>(
    service: &mut S,
    context: &C,
    input: &mut Input,
    output: &mut Vec<u8>,
    reader: &mut R,
    writer: &mut W,
) -> Result<ServeEnd, u64>
    requires { input.old ≡ [] }
    ensures served { IfOk result (λ end. Serves (S.may_answer context.now) service.old
        service.new (R.remaining reader.old) (R.remaining reader.new)
        (W.contents writer.old) (W.contents writer.new) end.why end.count) }
    ensures endless { IfErr result (λ count. Serves (S.may_answer context.now) service.old
        service.new (R.remaining reader.old) (R.remaining reader.new)
        (W.contents writer.old) (W.contents writer.new) Why.ReadFailed count
        × ConsumesMany (R.remaining reader.old) (R.remaining reader.new) (2 ^ 64 - 1)) }
{
    let mut count = 0;
    'reads: for done in 0..u64::MAX {
        match input.read_from(reader) {
            Err(_) => {
                return Ok(ServeEnd {
                    why: Why::ReadFailed,
                    count,
                });
            }
            Ok(0) => {
                if input.bytes().is_empty() {
                    return Ok(ServeEnd {
                        why: Why::Closed,
                        count,
                    });
                }
                return Ok(refuse(output, writer, count));
            }
            Ok(_) => {}
        }
        let (stop, total) = answer_all(service, context, input, output, writer, count);
        count = total;
        match stop {
            RoundsEnd::NeedsMore => {}
            RoundsEnd::Broken => return Ok(refuse(output, writer, count)),
            RoundsEnd::Last => {
                return Ok(ServeEnd {
                    why: Why::Closed,
                    count,
                });
            }
            RoundsEnd::NotWritten => {
                return Ok(ServeEnd {
                    why: Why::WriteFailed,
                    count,
                });
            }
        }
    }
    Err(count)
}

/// Answers the messages of a stream by a service until the stream ends. What an earlier stream left in the buffers is
/// no part of it.
///
/// Each error of a read or write, and a write of 0 bytes, ends it at once; so do 2^64 - 1 reads.
pub fn serve_messages<C, S: Service<C>, R: Read, W: Write>(
    service: &mut S,
    context: &C,
    buffers: &mut Buffers,
    reader: &mut R,
    writer: &mut W,
) -> ServeEnd
    ensures { Serves (S.may_answer context.now) service.old
        service.new (R.remaining reader.old) (R.remaining reader.new)
        (W.contents writer.old) (W.contents writer.new) result.why result.count }
{
    buffers.input.clear();
    let served = serve_with(
        service,
        context,
        &mut buffers.input,
        &mut buffers.output,
        reader,
        writer,
    );
    match served {
        Ok(end) => end,
        Err(count) => ServeEnd {
            why: Why::ReadFailed,
            count,
        },
    }
}
