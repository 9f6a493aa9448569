//! The assertion of all tables: it is proved once, since each place of an assertion costs a proof.

use std::fmt::Debug;
use std::process::Abort;

// What is found is what is wanted in a row.
pub fn same<T: Copy + PartialEq>(rt: &impl Abort, row: impl Copy + Debug, found: T, wanted: T) {
    assert!(rt; found == wanted, "{row:?}");
}
