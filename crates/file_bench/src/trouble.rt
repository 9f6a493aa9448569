//! What ends a script.

use std::alloc::AllocError;

/// In what the engine and the plain list differ.
#[derive(Clone, Copy)]
pub(crate) enum Trouble {
    /// Out of memory.
    NoMemory,
    /// There is no such disk, or the call can't be begun, or it wants no block of the disk, or it takes more completions than it may.
    Stuck,
    /// The reply of the engine, and that of the list.
    Reply(i32, i32),
    /// The bytes that were read.
    Bytes,
    /// What is open, or the positions.
    Devices,
    /// The files, after so many completions.
    Files(u32),
}

impl From<AllocError> for Trouble {
    fn from(_error: AllocError) -> Trouble {
        Trouble::NoMemory
    }
}
