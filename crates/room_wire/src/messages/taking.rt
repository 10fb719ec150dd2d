//! Taking messages from the front of a stream.
ghost use Rattle.std.specs.Prelude.{◌≡◌, ◌<◌, length, take, IsUtf8};
ghost use Rattle.httparse.specs.Spans.{IsRequestWithin, IsRequestOf};
ghost use Rattle.room_wire.specs.Messages.Limits.{max_head};
ghost use Rattle.room_wire.specs.Messages.Taken.{Takes};

use crate::messages::fields::body_length;
use crate::messages::message::{MAX_FIELDS, Message, Take};
use httparse::Status;
use httparse::spans::{EMPTY_HEADER_SPAN, HeaderSpan, RequestSpans, parse_request};

/// The greatest length of a head.
pub(crate) const MAX_HEAD: usize = 8192;

/// The message at the front of the input, if one stands there. Takes no memory. `More` says what is
/// lacking: the rest of a head, in fewer than 8,192 bytes, or the rest of a body whose head is whole.
pub fn take_message(input: &[u8]) -> Take<'_>
    ensures { Takes input.now result }
{
    if input.is_empty() {
        return Take::More;
    }
    let window = &input[..input.len().min(MAX_HEAD)];
    let mut spans = [EMPTY_HEADER_SPAN; MAX_FIELDS];
    match parse_request(window, &mut spans) {
        Ok(Status::Complete(head)) => take_body(input, window, spans, head),
        Ok(Status::Partial) => {
            if input.len() < MAX_HEAD {
                Take::More
            } else {
                Take::Bad
            }
        }
        Err(_) => Take::Bad,
    }
}

fn text_of(bytes: &[u8]) -> &str
    requires { IsUtf8 bytes.now }
    ensures { result.now ≡ bytes.now }
{
    str::from_utf8(bytes).unwrap()
}

fn take_body<'a>(
    input: &'a [u8],
    window: &'a [u8],
    spans: [HeaderSpan; MAX_FIELDS],
    head: RequestSpans,
) -> Take<'a>
    requires some { 0 < length input.now }
    requires window { window.now ≡ take max_head input.now }
    requires within { IsRequestWithin window.now spans head }
    requires complete { IsRequestOf window.now spans head }
    ensures { Takes input.now result }
{
    let Some(length) = body_length(window, &spans[..head.headers]) else {
        return Take::Bad;
    };
    if input.len() - head.len < length {
        return Take::More;
    }
    let size = head.len + length;
    Take::Whole(Message {
        method: head.method.of(window),
        target: text_of(head.path.of(window)),
        window,
        spans,
        count: head.headers,
        body: &input[head.len..size],
        minor: head.version,
        size,
    })
}
