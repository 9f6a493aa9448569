//! Why a text isn't assembled.

ghost use Rattle.std.specs.Prelude.{◌≡◌};

use std::alloc::AllocError;

/// The first fault of a text. Lines are counted from 1.
#[derive(Clone, Copy, PartialEq, Eq)]
pub enum AsmFault {
    /// The line has no form of the language, or a directive is repeated or late. Line 0: no line has a fault, but there is too little
    /// content for an image.
    BadLine(u32),
    /// There is no such instruction, directive, register, call or label, or a name is where a number has to be.
    UnknownName(u32),
    /// A number, an offset or an address doesn't fit its field, RAM or an image file.
    OutOfRange(u32),
    /// A label has the name of an earlier one.
    DoubleLabel(u32),
    /// There was no memory for the image file or the labels.
    NoMemory,
}

impl From<AllocError> for AsmFault {
    ghost use Rattle.rv_asm.specs.declared.faults.AsmFault.TheVariants.{NoMemory};

    ghost from_gives = { λ _ e. e ≡ NoMemory };

    fn from(_e: AllocError) -> AsmFault {
        AsmFault::NoMemory
    }
}
