//! What a call on a device comes to.

use reference_state::{Answer, FileCall};

/// What a call on a device comes to.
#[derive(Drop)]
pub enum DeviceOutcome {
    /// The call went so.
    Done(Answer),
    /// The files are asked for this call, whose bytes are at an address. Nothing is done yet.
    Asks(FileCall, u32),
}
