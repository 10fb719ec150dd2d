//! What `%{..}` stands for.
use crate::fault::Fault;
use std::alloc::Global;

/// A name of a file, and the text that it stands for.
#[derive(Drop)]
struct Named {
    name: String,
    text: Vec<u8>,
}

/// The names of a file, each with its text.
#[derive(Drop)]
pub struct Names {
    alloc: Global,
    all: Vec<Named>,
}

fn is_name(name: &str) -> bool {
    !name.is_empty()
        && name.bytes().all(|b| b.is_ascii_uppercase() || b.is_ascii_digit() || b == b'_')
}

impl Names {
    pub fn new(alloc: Global) -> Names {
        Names {
            alloc,
            all: Vec::new(alloc),
        }
    }

    fn text(&self, name: &str) -> Option<&[u8]> {
        for named in &self.all {
            if named.name.as_str() == name {
                return Some(named.text.as_slice());
            }
        }
        None
    }

    /// Adds `NAME = TEXT`.
    pub fn add(&mut self, line: &str) -> Result<(), Fault> {
        let Some((name, text)) = line.split_once(" = ") else {
            return Err(Fault::Because("a let without ' = '"));
        };
        if !is_name(name) {
            return Err(Fault::Because("a name is of capital letters, digits and _"));
        }
        if self.text(name).is_some() {
            return Err(Fault::Because("a name twice"));
        }
        let text = self.expanded(text, None)?;
        let name = String::from_str(self.alloc, name)?;
        self.all.push(Named { name, text })?;
        Ok(())
    }

    /// The text with what each `%{..}` stands for. The count is that of a line with `N times`.
    pub fn expanded(&self, text: &str, count: Option<u32>) -> Result<Vec<u8>, Fault> {
        let mut whole = Vec::new(self.alloc);
        for (place, piece) in text.split("%{").enumerate() {
            if place == 0 {
                whole.extend_from_slice(piece.as_bytes())?;
            } else {
                self.add_piece(piece, count, &mut whole)?;
            }
        }
        Ok(whole)
    }

    /// Adds what stands behind a `%{`.
    fn add_piece(&self, piece: &str, count: Option<u32>, whole: &mut Vec<u8>) -> Result<(), Fault> {
        let Some((inside, after)) = piece.split_once('}') else {
            return Err(Fault::Because("a %{ without its }"));
        };
        self.add_meaning(inside, count, whole)?;
        whole.extend_from_slice(after.as_bytes())?;
        Ok(())
    }

    fn add_meaning(
        &self,
        inside: &str,
        count: Option<u32>,
        whole: &mut Vec<u8>,
    ) -> Result<(), Fault> {
        if inside == "n" {
            return add_count(self.alloc, count, whole);
        }
        if let Some(text) = self.text(inside) {
            whole.extend_from_slice(text)?;
            return Ok(());
        }
        if let Some(digits) = inside.strip_prefix("hex ") {
            return add_hex(digits, whole);
        }
        if let Some((times, text)) = inside.split_once(" * ") {
            return add_times(times, text, whole);
        }
        Err(Fault::Because("a %{..} that stands for nothing"))
    }
}

fn add_count(alloc: Global, count: Option<u32>, whole: &mut Vec<u8>) -> Result<(), Fault> {
    let Some(count) = count else {
        return Err(Fault::Because("%{n} outside a line with 'times'"));
    };
    let text = format!(in alloc; "{count}")?;
    whole.extend_from_slice(text.as_bytes())?;
    Ok(())
}

fn add_hex(digits: &str, whole: &mut Vec<u8>) -> Result<(), Fault> {
    for pair in digits.split(' ') {
        let (2, Ok(byte)) = (pair.len(), u8::from_str_radix(pair, 16)) else {
            return Err(Fault::Because("a byte is two hexadecimal digits"));
        };
        whole.push(byte)?;
    }
    Ok(())
}

fn add_times(times: &str, text: &str, whole: &mut Vec<u8>) -> Result<(), Fault> {
    let Ok(times) = times.parse::<u32>() else {
        return Err(Fault::Because("'%{N * ' without a number"));
    };
    for _ in 0..times {
        whole.extend_from_slice(text.as_bytes())?;
    }
    Ok(())
}
