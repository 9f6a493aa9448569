//! What the console hasn't sent at the end of a run.

use machine::KernelState;
use run_story::Story;
use std::alloc::AllocError;
use tty_driver::Tty;

/// Control-Q: output goes on.
const GO_ON: u8 = 0x11;

/// Tells a story which bytes the console of a state has to send, in the order in which it would send them.
///
/// # Errors
/// Out of memory.
pub(crate) fn tell_unsent(story: &mut Story, k: &KernelState) -> Result<(), AllocError> {
    let mut tty: Tty = k.tty.clone()?;
    let sizes = tty.sizes();
    if sizes.held {
        let _committed = tty.receive(GO_ON);
    }
    for _ in 0..sizes.output.saturating_add(sizes.echo) {
        if let Some((byte, _)) = tty.transmit() {
            story.unsent(byte);
        }
    }
    Ok(())
}
