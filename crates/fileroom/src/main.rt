//! The program `fileroom`: `main` alone. What it does stands in the crate `room_program`.
#![tactic(auto)]

use room_program::{Fault, Host, Unknown, run_program};
use std::env;
use std::io::{self, ErrorKind, Write};
use std::process::ExitCode;

/// Why the words could not be had: the status, after a line on standard error.
fn refuse(rt: &HostRuntime, error: &io::Error) -> u8 {
    if error.kind() == ErrorKind::OutOfMemory {
        let _ = rt.stderr().write(Fault::Memory.line().as_bytes());
        1
    } else {
        let _ = rt.stderr().write(b"error: the words are not UTF-8\n");
        2
    }
}

/// The words behind the program's name.
fn words(rt: &HostRuntime) -> io::Result<Vec<String>> {
    Ok(env::args(rt)?.skip(1).collect(rt.alloc())?)
}

fn main(rt: HostRuntime) -> ExitCode {
    let status = match words(&rt) {
        Ok(words) => run_program(
            rt.alloc(),
            &mut Host::new(&rt, Unknown),
            words.as_slice(),
            &mut rt.stdin(),
            &mut rt.stdout(),
            &mut rt.stderr(),
        ),
        Err(error) => refuse(&rt, &error),
    };
    ExitCode::from(status)
}
