//! Plays examples that stand in text files: requests to a fresh room, each with the answer that is due. Every scene is
//! played in each way that fits, and all ways must give the same bytes. The arguments are the files.
#![tactic(auto)]

mod asking;
mod differences;
mod due;
mod expanding;
mod fault;
mod headings;
mod numbers;
mod playing;
mod puts;
mod reading;
mod requests;
mod rooms;
mod scenes;
mod shelves;
mod ways;

use crate::differences::Differences;
use crate::playing::play_scenes;
use crate::reading::{Unread, read_scenes};
use crate::scenes::Scene;
use crate::ways::WAYS;
use std::process::ExitCode;
use std::{env, fs, io};

fn files(rt: &HostRuntime) -> io::Result<Vec<String>> {
    Ok(env::args(rt)?.skip(1).collect(rt.alloc())?)
}

/// How many answers and reports are due in all scenes.
fn count_of(scenes: &[Scene]) -> usize {
    let mut count = 0usize;
    for scene in scenes {
        count = count.saturating_add(scene.count());
    }
    count
}

fn print_lines(rt: &HostRuntime, lines: &[String]) -> io::Result<()> {
    for line in lines {
        println!(rt; "{line}")?;
    }
    Ok(())
}

/// Prints why a file is not played.
fn print_why(rt: &HostRuntime, file: &str, line: usize, why: &str) -> io::Result<bool> {
    println!(rt; "{file}:{line}: {why}")?;
    Ok(false)
}

fn print_count(rt: &HostRuntime, file: &str, scenes: &[Scene]) -> io::Result<()> {
    let examples = count_of(scenes);
    let count = scenes.len();
    println!(rt; "{file}: {examples} examples in {count} scenes")
}

/// Plays the scenes of a file, and prints what was found: whether nothing was.
fn play_read(rt: &HostRuntime, file: &str, scenes: &[Scene]) -> io::Result<bool> {
    let mut differences = Differences::new(rt.alloc(), file);
    if let Err(fault) = play_scenes(rt.alloc(), scenes, &mut differences) {
        return print_why(rt, file, 1, fault.text());
    }
    print_lines(rt, differences.lines.as_slice())?;
    print_count(rt, file, scenes)?;
    Ok(differences.lines.is_empty())
}

fn play_text(rt: &HostRuntime, file: &str, text: &str) -> io::Result<bool> {
    match read_scenes(rt.alloc(), text) {
        Ok(scenes) => play_read(rt, file, scenes.as_slice()),
        Err(Unread { line, fault }) => print_why(rt, file, line, fault.text()),
    }
}

/// Plays a file, and says whether all was as it is due.
fn play_file(rt: &HostRuntime, file: &str) -> io::Result<bool> {
    match fs::read_to_string(rt, file) {
        Ok(text) => play_text(rt, file, text.as_str()),
        Err(error) => {
            println!(rt; "{file}:1: {error}")?;
            Ok(false)
        }
    }
}

fn print_ways(rt: &HostRuntime) -> io::Result<()> {
    print!(rt; "ways:")?;
    for (word, _) in &WAYS {
        let word = *word;
        print!(rt; " {word}")?;
    }
    println!(rt; "")
}

fn play_files(rt: &HostRuntime, files: &[String]) -> io::Result<bool> {
    let mut good = !files.is_empty();
    for file in files {
        good = play_file(rt, file.as_str())? && good;
    }
    print_ways(rt)?;
    Ok(good)
}

fn main(rt: HostRuntime) -> io::Result<ExitCode> {
    let files = files(&rt)?;
    let good = play_files(&rt, files.as_slice())?;
    Ok(ExitCode::from(if good { 0 } else { 1 }))
}
