//! What can be wrong with an image file.

ghost use Rattle.std.specs.Prelude.{◌≡◌};
ghost use Rattle.image_loader.specs.Faults.{fault_number};

/// The first field of an image file that doesn't hold, in the order in which the fields are judged.
#[derive(Clone, Copy, PartialEq, Eq)]
pub enum ImageFault {
    /// There are fewer bytes than a header has, which is 28.
    Short,
    /// The first word isn't the letters `XIMG`.
    Magic,
    /// The version isn't 1.
    Version,
    /// The content hasn't the length that the header gives.
    Length,
    /// The place isn't a multiple of 4, or the content doesn't end in RAM.
    Place,
    /// The entry isn't a multiple of 4, or isn't the address of a word of the content.
    Entry,
    /// The priority isn't from 1 to 32767.
    Priority,
}

impl ImageFault {
    /// The number by which the fault is reported, from 1 for `Short` to 7 for `Priority`.
    pub fn number(self) -> u8
        ensures { result ≡ fault_number self }
    {
        match self {
            ImageFault::Short => 1,
            ImageFault::Magic => 2,
            ImageFault::Version => 3,
            ImageFault::Length => 4,
            ImageFault::Place => 5,
            ImageFault::Entry => 6,
            ImageFault::Priority => 7,
        }
    }
}
