//! What is wrong with the words of a command.

use crate::value_kinds::Kind;

/// Why arguments can't be read.
#[derive(Clone, Copy)]
pub enum ReadingFault<'a> {
    /// There is no option that this argument names.
    Unknown(&'a str),
    /// The option of this name is given twice.
    Twice(&'static str),
    /// The option of this name has no value.
    NoValue(&'static str),
    /// The option of this name takes no value.
    TakesNone(&'static str),
}

/// What is wrong with the words of a command.
#[derive(Clone, Copy)]
pub enum WordsFault<'a> {
    /// They can't be read.
    Unreadable(ReadingFault<'a>),
    /// The value of this option isn't one of its kind.
    BadValue {
        name: &'static str,
        kind: Kind,
    },
    /// This option isn't given.
    Missing(&'static str),
    /// The first option is given without the other.
    GoesWith {
        name: &'static str,
        other: &'static str,
    },
    /// The first option is given with the other.
    NotWith {
        name: &'static str,
        other: &'static str,
    },
    /// No image is named.
    NoImage,
    /// Over eight images are named.
    ManyImages,
    /// The name of an image is empty.
    NamelessImage,
}
