//! The fields of a head.
ghost use Rattle.std.specs.Prelude.{◌≡◌, ◌≤◌, length, map, All, if◌then◌else◌, bytes_eq, IfSome, IsTrue, nat_le};
ghost use Rattle.std.specs.List.{list_all};
ghost use Rattle.std.specs.Char.{to_ascii_lowercase, is_ascii_digit};
ghost use Rattle.std.specs.Str.Parse.{digits_value};
ghost use Rattle.httparse.specs.Spans.{IsHeaderWithin, header_bytes};
ghost use Rattle.room_wire.specs.Messages.Fields.{stated_length, values_named, body_length, IsFound};
ghost use Rattle.room_wire.specs.Messages.Limits.{max_body};

use httparse::spans::HeaderSpan;

/// The values of the fields of one name.
#[derive(Clone, Copy, Debug)]
pub(crate) enum Found<'b> {
    Absent,
    One(&'b [u8]),
    Many,
}

/// The greatest length of a body.
pub(crate) const MAX_BODY: usize = 131_072;

pub(crate) fn all_digits(text: &[u8]) -> bool
    ensures { result ≡ list_all is_ascii_digit text.now }
{
    text.iter().all(|b| b.is_ascii_digit())
}

/// The number, where it is at most MAX_BODY.
fn number_within(digits: &[u8]) -> Option<usize>
    requires { IsTrue (list_all is_ascii_digit digits.now) }
    ensures { result ≡ (if nat_le (digits_value 10 digits.now) max_body
        then Some (digits_value 10 digits.now) else None) }
{
    let mut number: usize = 0;
    for b in digits {
        number = number * 10 + usize::from(*b - b'0');
        if number > MAX_BODY {
            return None;
        }
    }
    Some(number)
}

/// The length that a field's value states.
fn stated_length(text: &[u8]) -> Option<usize>
    ensures value { result ≡ stated_length text.now }
    ensures within { IfSome result (λ n. n ≤ max_body) }
{
    if text.is_empty() || text.len() > 10 || !all_digits(text) {
        return None;
    }
    number_within(text)
}

pub(crate) fn same_name(a: &[u8], b: &[u8]) -> bool
    ensures { result ≡ bytes_eq (map to_ascii_lowercase a.now) (map to_ascii_lowercase b.now) }
{
    a.eq_ignore_ascii_case(b)
}

/// The values of the fields of this name.
pub(crate) fn values_of<'b>(buf: &'b [u8], headers: &[HeaderSpan], name: &[u8]) -> Found<'b>
    requires { All (IsHeaderWithin (length buf.now)) headers.now }
    ensures { IsFound result (values_named name.now (map (header_bytes buf.now) headers.now)) }
{
    let mut found = Found::Absent;
    for header in headers {
        if same_name(header.name.of(buf), name) {
            found = match found {
                Found::Absent => Found::One(header.value.of(buf)),
                _ => Found::Many,
            };
        }
    }
    found
}

/// The length of the body that the fields state.
pub(crate) fn body_length(buf: &[u8], headers: &[HeaderSpan]) -> Option<usize>
    requires { All (IsHeaderWithin (length buf.now)) headers.now }
    ensures value { result ≡ body_length (map (header_bytes buf.now) headers.now) }
    ensures within { IfSome result (λ n. n ≤ max_body) }
{
    match values_of(buf, headers, b"transfer-encoding") {
        Found::Absent => match values_of(buf, headers, b"content-length") {
            Found::Absent => Some(0),
            Found::One(text) => stated_length(text),
            Found::Many => None,
        },
        _ => None,
    }
}
