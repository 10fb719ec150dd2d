//! Runs of the program over streams in memory.
use room_program::{Host, Unknown, run_program};
use std::io::{Read, Write};
use std::test::Fail;
use test_support::{ANSWER, BAD_HTTP, BoundedWriter, Full, Pieces, QUESTION};

/// The status with which the program ends on these words.
fn ended<R: Read, W: Write, E: Write>(
    rt: &HostRuntime,
    texts: &[&str],
    input: &mut R,
    output: &mut W,
    errors: &mut E,
) -> Result<u8, Fail> {
    let mut words = Vec::new(rt.alloc());
    for text in texts {
        words.push(String::from_str(rt.alloc(), text)?)?;
    }
    let mut host = Host::new(rt, Unknown);
    Ok(run_program(
        rt.alloc(),
        &mut host,
        words.as_slice(),
        input,
        output,
        errors,
    ))
}

/// A status, and the bytes on the output and on standard error.
type Ended<'a> = (u8, &'a [u8], &'a [u8]);

/// A run ended as due.
fn is_as_due(found: Ended<'_>, due: Ended<'_>, what: &str) -> Result<(), Fail> {
    let (status, output, errors) = found;
    let (status_due, output_due, errors_due) = due;
    if status != status_due || output != output_due || errors != errors_due {
        return Err(Fail::new(format_args!("{what}: status {status}")));
    }
    Ok(())
}

/// `check` ends as due on this input.
fn check_ends(rt: &HostRuntime, input: &str, due: Ended<'_>) -> Result<(), Fail> {
    let mut output = Vec::new(rt.alloc());
    let mut errors = Vec::new(rt.alloc());
    let reader = &mut input.as_bytes();
    let status = ended(rt, &["check"], reader, &mut output, &mut errors)?;
    is_as_due((status, output.as_slice(), errors.as_slice()), due, input)
}

#[test]
fn check_answers(rt: HostRuntime) -> Result<(), Fail> {
    for (input, status, output, fault) in [
        ("", 0, "", ""),
        (QUESTION, 0, ANSWER, ""),
        ("no message\r\n", 1, BAD_HTTP, "fileroom: bad message\n"),
    ] {
        check_ends(&rt, input, (status, output.as_bytes(), fault.as_bytes()))?;
    }
    Ok(())
}

#[test]
fn check_whose_input_fails(rt: HostRuntime) -> Result<(), Fail> {
    let mut reader = Pieces::new(&[QUESTION], 2);
    let mut output = Vec::new(rt.alloc());
    let mut errors = Vec::new(rt.alloc());
    let status = ended(&rt, &["check"], &mut reader, &mut output, &mut errors)?;
    let due = (1, ANSWER.as_bytes(), "fileroom: read failed\n".as_bytes());
    is_as_due(
        (status, output.as_slice(), errors.as_slice()),
        due,
        "a read fails",
    )
}

#[test]
fn check_whose_two_outputs_fail(rt: HostRuntime) -> Result<(), Fail> {
    let mut output = BoundedWriter::new(rt.alloc(), 0, 1, Full::TakesNone);
    let mut errors = BoundedWriter::new(rt.alloc(), 5, 1, Full::Fails);
    let input = &mut QUESTION.as_bytes();
    let status = ended(&rt, &["check"], input, &mut output, &mut errors)?;
    let due = (1, "".as_bytes(), "filer".as_bytes());
    is_as_due(
        (status, output.taken.as_slice(), errors.taken.as_slice()),
        due,
        "both fail",
    )
}

/// On these words the program ends with this status, and tells this usage: on its output where it was asked, else on
/// standard error. The other stays empty, and the input is left alone.
fn tells_usage(rt: &HostRuntime, texts: &[&str], status: u8, usage: &str) -> Result<(), Fail> {
    let mut reader = Pieces::new(&[QUESTION], 0);
    let mut output = Vec::new(rt.alloc());
    let mut errors = Vec::new(rt.alloc());
    let found = ended(rt, texts, &mut reader, &mut output, &mut errors)?;
    let (told, other) = if status == 0 {
        (output.as_slice(), errors.as_slice())
    } else {
        (errors.as_slice(), output.as_slice())
    };
    let is_told = std::str::from_utf8(told)?.contains(usage);
    if found != status || reader.calls != 0 || !is_told || !other.is_empty() {
        return Err(Fail::new(format_args!("{texts:?}: status {found}")));
    }
    Ok(())
}

/// Words that name no job, or ask for help.
#[test]
fn other_words(rt: HostRuntime) -> Result<(), Fail> {
    let empty: [&str; 0] = [];
    for (texts, status, usage) in [
        (empty.as_slice(), 2, "Usage: fileroom <COMMAND>"),
        (["chek"].as_slice(), 2, "Usage: fileroom <COMMAND>"),
        (["check", "more"].as_slice(), 2, "Usage: fileroom check"),
        (["check", "--more"].as_slice(), 2, "Usage: fileroom check"),
        (["help"].as_slice(), 2, "Usage: fileroom <COMMAND>"),
        (["--help"].as_slice(), 0, "Usage: fileroom <COMMAND>"),
        (["-h"].as_slice(), 0, "Usage: fileroom <COMMAND>"),
        (["check", "--help"].as_slice(), 0, "Usage: fileroom check"),
    ] {
        tells_usage(&rt, texts, status, usage)?;
    }
    Ok(())
}
