//! What a test asks of values. Each assertion written into a body makes its proof much longer, a call does not.
use std::fmt::Debug;
use std::process::Abort;

/// Two values are the same.
pub fn same<T: Copy + Debug + PartialEq>(rt: &impl Abort, got: T, wanted: T, what: &str) {
    assert_eq!(rt; got, wanted, "{what}");
}

/// A fact is true.
pub fn holds(rt: &impl Abort, fact: bool, what: &str) {
    assert!(rt; fact, "{what}");
}
