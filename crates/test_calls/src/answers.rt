//! The rest of a stream, and commands as they are kept.
use crate::checks::same;
use room_wire::{command_text, read_command, rest_of_stream};
use std::alloc::Global;
use std::test::Fail;

/// A question, the last one, and a rest.
const LAST: &str =
    "POST /v1/check HTTP/1.1\r\n\r\nPOST /v1/check HTTP/1.1\r\nConnection: keep-alive, Close\r\n\r\nnot looked at";

#[test]
fn what_stands_behind_the_last_message(rt: HostRuntime) {
    let rest = rest_of_stream(LAST.as_bytes());
    same(&rt, rest, b"not looked at".as_slice(), "the rest");
}

/// Texts of commands as they are kept.
static KEPT: [&str; 13] = [
    r#"{"cmd":"STAT","path":"/"}"#,
    r#"{"cmd":"LIST","path":"/a"}"#,
    r#"{"cmd":"MKDIR","path":"/a/b c"}"#,
    r#"{"cmd":"CREATE","data":"","path":"/a"}"#,
    r#"{"cmd":"READ","path":"/é"}"#,
    r#"{"cmd":"WRITE","data":"aGk=","path":"/a"}"#,
    r#"{"cmd":"APPEND","data":"+/8=","path":"/a"}"#,
    r#"{"cmd":"REMOVE","path":"/1/2/3/4/5/6/7/8/9/10/11/12/13/14/15/16"}"#,
    r#"{"cmd":"RENAME","path":"/a","to":"/b/a"}"#,
    r#"{"cmd":"GETLIST","path":"/..."}"#,
    "{\"aclflag\":7,\"cmd\":\"SETLIST\",\"entries\":[\
{\"flag\":131,\"mask\":2033663,\"type\":0,\"who\":\"OWNER@\"},\
{\"flag\":64,\"mask\":0,\"type\":1,\"who\":\"eng\"}],\"path\":\"/a\"}",
    r#"{"cmd":"CHOWN","group":"eng","owner":"a.b_c-1","path":"/a"}"#,
    r#"{"cmd":"ACCESS","mask":1179817,"path":"/a"}"#,
];

/// A body asks the command whose text is kept so.
fn is_kept_as(alloc: Global, body: &[u8], wanted: &str) -> Result<(), Fail> {
    let (command, _) = read_command(alloc, body)?;
    if command_text(alloc, &command)?.as_slice() != wanted.as_bytes() {
        return Err(Fail::new(format_args!("not kept as {wanted}")));
    }
    Ok(())
}

/// A text as it is kept, and one with blanks, escapes, `keep` and another order, which is kept without them.
#[test]
fn commands_are_kept_as_text(rt: HostRuntime) -> Result<(), Fail> {
    for text in &KEPT {
        is_kept_as(rt.alloc(), text.as_bytes(), text)?;
    }
    let body =
        b" {\"path\" : \"/\\u0061\",\n\t\"data\":\"aGk=\", \"keep\":false, \"cmd\":\"WRITE\" }\r\n";
    is_kept_as(
        rt.alloc(),
        body,
        r#"{"cmd":"WRITE","data":"aGk=","path":"/a"}"#,
    )
}
