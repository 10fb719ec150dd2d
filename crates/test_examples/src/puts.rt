//! Whose entries a command puts.
use crate::fault::Fault;
use std::alloc::Global;

/// Whose entries a command puts.
#[derive(Drop)]
pub struct Puts {
    /// Of how many objects.
    pub count: usize,
    /// Their paths behind the command. None where the count alone is told.
    pub paths: Vec<String>,
}

/// Reads a count, or paths with a blank between them.
pub fn read_puts(alloc: Global, text: &str) -> Result<Puts, Fault> {
    let mut paths = Vec::new(alloc);
    if let Ok(count) = text.parse::<usize>() {
        return Ok(Puts { count, paths });
    }
    for path in text.split(' ') {
        if !path.starts_with('/') {
            return Err(Fault::Because("'puts' without a count or paths"));
        }
        paths.push(String::from_str(alloc, path)?)?;
    }
    Ok(Puts {
        count: paths.len(),
        paths,
    })
}
