//! Facts that must hold.
use std::test::Fail;

/// Fails with what was asked for where a fact does not hold.
pub fn must(holds: bool, what: &str) -> Result<(), Fail> {
    if holds {
        Ok(())
    } else {
        Err(Fail::new(format_args!("another answer at {what}")))
    }
}
