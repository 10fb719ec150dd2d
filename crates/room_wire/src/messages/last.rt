//! Which message is last.
ghost use Rattle.std.specs.Prelude.{◌≡◌, length, map, take, All, ◌||◌, ◌==◌, ◌≤◌, ◌<◌, reverse};
ghost use Rattle.std.specs.Prelude.{position, IfSome, ◌+◌, ◌^◌};
ghost use Rattle.httparse.specs.Grammar.{skip_ows, trim_ows};
ghost use Rattle.httparse.specs.Spans.{IsHeaderWithin, header_bytes};
ghost use Rattle.room_wire.specs.Messages.Stream.{is_close, lists_close, asks_to_close};

use crate::messages::fields::same_name;
use crate::messages::message::Message;
use httparse::is_space_or_tab;
use httparse::spans::HeaderSpan;

fn trim_start(mut s: &[u8]) -> &[u8]
    ensures { result.now ≡ skip_ows s.now }
{
    while let [first, rest @ ..] = s
        && is_space_or_tab(*first)
    {
        s = rest;
    }
    s
}

fn trim_end(mut s: &[u8]) -> &[u8]
    ensures { result.now ≡ reverse (skip_ows (reverse s.now)) }
{
    while let [rest @ .., last] = s
        && is_space_or_tab(*last)
    {
        s = rest;
    }
    s
}

fn trim_ows(s: &[u8]) -> &[u8]
    ensures { result.now ≡ trim_ows s.now }
{
    trim_end(trim_start(s))
}

fn is_close(part: &[u8]) -> bool
    ensures { result ≡ is_close part.now }
{
    same_name(trim_ows(part), b"close")
}

fn comma_in(value: &[u8]) -> Option<usize>
    ensures value { result ≡ position (λ b. b == 44) value.now }
    ensures within { IfSome result (λ at. (at < length value.now) × (at + 1 < 2 ^ 64)) }
{
    value.iter().position(|b| *b == b',')
}

fn lists_close(value: &[u8]) -> bool
    ensures { result ≡ lists_close value.now }
{
    let mut rest = value;
    'parts: while let Some(comma) = comma_in(rest) {
        if is_close(&rest[..comma]) {
            return true;
        }
        rest = &rest[comma + 1..];
    }
    is_close(rest)
}

fn closes(buf: &[u8], headers: &[HeaderSpan]) -> bool
    requires { All (IsHeaderWithin (length buf.now)) headers.now }
    ensures { result ≡ asks_to_close (map (header_bytes buf.now) headers.now) }
{
    let mut close = false;
    for header in headers {
        if same_name(header.name.of(buf), b"connection") && lists_close(header.value.of(buf)) {
            close = true;
        }
    }
    close
}

/// Whether the message is the last of its stream.
pub(crate) fn is_last(message: &Message<'_>) -> bool
    ensures { result ≡ ((message.now.minor == 0)
        || asks_to_close (map (header_bytes message.now.window.now) (take message.now.count message.now.spans))) }
{
    message.minor == 0 || closes(message.window, &message.spans[..message.count])
}
