//! Sending answers.
ghost use Rattle.std.specs.Prelude.{◌≡◌, ◌++◌, ◌≤◌, IsTrue, length};
ghost use Rattle.room_wire.specs.Answers.AnswerModel.{answer_model, answer_bytes, head_text, phrase, end_text};
ghost use Rattle.room_records.specs.Writers.{Sent};

use crate::answers::answer::Answer;
use arrayvec::ArrayString;
use http::StatusCode;
use itoa::Buffer;
use room_records::write_whole;
use std::io::Write;

fn end_text(last: bool) -> &'static str
    ensures { result.now ≡ end_text last }
{
    if last {
        "\r\nconnection: close\r\n\r\n"
    } else {
        "\r\n\r\n"
    }
}

fn phrase_of(status: StatusCode) -> &'static str
    ensures { result.now ≡ phrase status }
{
    match status.canonical_reason() {
        Some(text) => text,
        None => "",
    }
}

/// The status line, the fields and the empty line.
fn head_of(status: StatusCode, size: usize, last: bool) -> ArrayString<192>
    requires { length (phrase status) ≤ 32 }
    ensures { result.bytes ≡ head_text status size last }
{
    let mut digits = Buffer::new();
    let mut head = ArrayString::new();
    head.push_str("HTTP/1.1 ");
    head.push_str(status.as_str());
    head.push_str(" ");
    head.push_str(phrase_of(status));
    head.push_str("\r\ncontent-type: application/json\r\ncontent-length: ");
    head.push_str(digits.format(size));
    head.push_str(end_text(last));
    head
}

/// Puts the head and the body behind one another, where the buffer holds both. It never grows.
fn gather(buffer: &mut Vec<u8>, head: &[u8], body: &[u8]) -> bool
    ensures { IsTrue result → buffer.new.items ≡ head.now ++ body.now }
{
    buffer.clear();
    if head.len() > buffer.capacity() || body.len() > buffer.capacity() - head.len() {
        return false;
    }
    buffer.extend_from_slice(head).is_ok() && buffer.extend_from_slice(body).is_ok()
}

/// Writes a head and a body: in one write where the buffer holds both and the writer takes them.
fn send_both<W: Write>(writer: &mut W, buffer: &mut Vec<u8>, head: &[u8], body: &[u8]) -> bool
    ensures { Sent (W.contents writer.old) (W.contents writer.new) (head.now ++ body.now) result }
{
    if gather(buffer, head, body) {
        return write_whole(writer, buffer.as_slice());
    }
    write_whole(writer, head) && write_whole(writer, body)
}

/// Writes one answer, and says whether all of it was taken.
///
/// `buffer` is where the answer is put together; an answer that is longer than it holds takes two writes.
pub fn send_answer<W: Write>(
    writer: &mut W,
    buffer: &mut Vec<u8>,
    answer: &Answer,
    last: bool,
) -> bool
    ensures { Sent (W.contents writer.old) (W.contents writer.new)
        (answer_bytes (answer_model answer.now) last) result }
{
    let body = answer.body();
    let head = head_of(answer.status(), body.len(), last);
    send_both(writer, buffer, head.as_str().as_bytes(), body)
}
