//! How a run is judged.

use command_words::Taken;

/// What the words of the command ask for.
#[derive(Clone, Copy)]
pub(crate) struct Asked<'a> {
    /// The names of the variables that are left out, with commas between them.
    atomic: &'a str,
    /// Whether each pair of places is told.
    pub(crate) pairs: bool,
}

impl<'a> Asked<'a> {
    /// What these words ask for.
    pub(crate) fn of(words: &Taken<'a>) -> Asked<'a> {
        Asked {
            atomic: words.value("atomic").unwrap_or(""),
            pairs: words.is_given("pairs"),
        }
    }

    /// Whether the variable of this name is left out.
    pub(crate) fn leaves_out(&self, name: &str) -> bool {
        for word in self.atomic.split(',') {
            if word == name {
                return true;
            }
        }
        false
    }
}
