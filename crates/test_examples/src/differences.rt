//! Differences that were found.
use crate::fault::Fault;
use std::alloc::Global;

/// The most letters of a text that are told.
const MOST: usize = 200;

/// The differences of a file, each once.
#[derive(Drop)]
pub struct Differences<'a> {
    alloc: Global,
    file: &'a str,
    way: &'a str,
    pub lines: Vec<String>,
}

fn push_shown(shown: &mut String, letter: char) -> Result<(), Fault> {
    match letter {
        '\r' => shown.push_str("\\r")?,
        '\n' => shown.push_str("\\n")?,
        _ => shown.push(letter)?,
    }
    Ok(())
}

/// A text on one line, cut where it is long.
fn shown(alloc: Global, bytes: &[u8]) -> Result<String, Fault> {
    let text = String::from_utf8_lossy(alloc, bytes)?;
    let mut shown = String::new(alloc);
    for (place, letter) in text.as_str().chars().enumerate() {
        if place == MOST {
            shown.push_str("..")?;
            break;
        }
        push_shown(&mut shown, letter)?;
    }
    Ok(shown)
}

fn other_text(alloc: Global, got: &[u8], due: &[u8]) -> Result<String, Fault> {
    let got = shown(alloc, got)?;
    let due = shown(alloc, due)?;
    Ok(format!(in alloc; "{got} and not {due}")?)
}

impl<'a> Differences<'a> {
    pub fn new(alloc: Global, file: &'a str) -> Differences<'a> {
        Differences {
            alloc,
            file,
            way: "",
            lines: Vec::new(alloc),
        }
    }

    /// What is told from here on is of this way.
    pub fn begin(&mut self, way: &'a str) {
        self.way = way;
    }

    /// Tells what a line shows, unless it was told before.
    pub fn tell(&mut self, line: usize, what: &str) -> Result<(), Fault> {
        let file = self.file;
        let way = self.way;
        let text = format!(in self.alloc; "{file}:{line}: {way}: {what}")?;
        if !self.is_told(text.as_str()) {
            self.lines.push(text)?;
        }
        Ok(())
    }

    fn is_told(&self, text: &str) -> bool {
        self.lines.iter().any(|line| line.as_str() == text)
    }

    /// Compares what a line gave with what was due.
    pub fn expect(&mut self, line: usize, got: &[u8], due: &[u8]) -> Result<(), Fault> {
        if got == due {
            return Ok(());
        }
        let text = other_text(self.alloc, got, due)?;
        self.tell(line, text.as_str())
    }
}
