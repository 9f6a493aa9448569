//! How a call goes.

/// How a call goes: its caller gets a reply, waits, or is gone; or the kernel panics. If there was no call nothing is answered.
#[derive(Clone, Copy)]
pub enum Answer {
    /// Its caller gets a reply.
    Returns(i32),
    /// Its caller waits.
    Waits,
    /// Its caller is dead.
    Gone,
    /// The kernel panicked.
    Panics,
    /// Nothing is answered.
    Silent,
}
