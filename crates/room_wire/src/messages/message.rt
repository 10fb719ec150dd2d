//! Messages of a stream.
ghost use Rattle.std.specs.Prelude.{◌≤◌, length, All, take};
ghost use Rattle.httparse.specs.Spans.{IsHeaderWithin};
ghost use Rattle.room_wire.specs.Messages.Limits.{max_fields};

use httparse::spans::HeaderSpan;

/// The most fields of a head.
pub(crate) const MAX_FIELDS: usize = 32;

/// A request of HTTP/1.0 or 1.1, whose parts are lent from the input: a head of at most 8,192 bytes
/// and 32 fields, and a body of at most 131,072 bytes.
#[derive(Clone, Copy, Debug)]
pub struct Message<'a> {
    pub method: &'a [u8],
    pub target: &'a str,
    /// The front of the input that the spans point into.
    pub window: &'a [u8],
    /// Where the names and values of the fields stand in `window`; the first `count` of them count.
    pub spans: [HeaderSpan; MAX_FIELDS],
    pub count: usize,
    pub body: &'a [u8],
    /// 0 for HTTP/1.0, 1 for HTTP/1.1.
    pub minor: u8,
    /// The bytes of head and body.
    pub size: usize,
    ghost count_fits: { count ≤ max_fields },
    ghost spans_within: { All (IsHeaderWithin (length window.now)) (take count spans) },
}

/// What stands at the front of the input.
#[derive(Clone, Copy, Debug)]
pub enum Take<'a> {
    /// A message.
    Whole(Message<'a>),
    /// No message yet: its head or its body is not whole, and fewer than 139,264 bytes have come.
    /// Of a head that is not whole the fields are not counted.
    More,
    /// No message, and none whatever bytes follow.
    Bad,
}
