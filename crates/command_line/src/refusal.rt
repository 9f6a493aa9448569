//! Why there is no command.

use std::alloc::AllocError;

/// Why arguments were answered with no command.
#[derive(Clone, Copy, PartialEq, Eq)]
pub enum ArgsFault {
    /// The arguments give no command.
    NoCommand,
    /// There was no memory to read them.
    NoMemory,
}

impl From<AllocError> for ArgsFault {
    ghost use Rattle.std.specs.Prelude.{◌≡◌};
    ghost use Rattle.command_line.specs.declared.refusal.ArgsFault.TheVariants.{NoMemory};

    ghost from_gives = { λ _ e. e ≡ NoMemory };

    fn from(_e: AllocError) -> ArgsFault {
        ArgsFault::NoMemory
    }
}
