//! Whose a semaphore is (book, chapter 7).

use crate::numbers::{PoolId, Port};

/// Whose a semaphore is, if it is in use.
#[derive(Clone, Copy, PartialEq, Eq)]
pub enum Owner {
    /// A process's: it was made by `semcreate`.
    Image,
    /// A buffer pool's: a token for each buffer that can be had.
    Pool(PoolId),
    /// A port's: one for room, one for messages.
    Port(Port),
    /// The kernel's own, for a device.
    Device,
}
