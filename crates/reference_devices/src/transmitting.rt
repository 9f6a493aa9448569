//! A transmission: one byte is sent, echo before output (book, chapter 15, `ttyhandle_out.c`).

ghost use Rattle.std.specs.Prelude.{◌≡◌, IfNone, option_map};
ghost use Rattle.reference_devices.specs.Received.{sent_of};
ghost use Rattle.xinu_model.specs.Console.Transmitting as model;

use reference_state::Console;

/// What is sent: the byte, and whether it was output.
#[derive(Clone, Copy)]
pub(crate) struct Sent {
    /// The byte.
    pub(crate) byte: u8,
    /// Whether it was output.
    pub(crate) is_output: bool,
}

/// A transmission. `None`, and nothing changes, if and only if output is held or there is nothing to be sent.
pub(crate) fn transmit(c: &mut Console) -> Option<Sent>
    ensures transmitted { option_map (sent_of c.new) result ≡ model.transmitted c.old }
    ensures stays { IfNone result (c.new ≡ c.old) }
{
    if c.is_held {
        return None;
    }
    if !c.echo.is_empty() {
        let byte = c.echo.remove(0);
        return Some(Sent {
            byte,
            is_output: false,
        });
    }
    if !c.output.is_empty() {
        let byte = c.output.remove(0);
        return Some(Sent {
            byte,
            is_output: true,
        });
    }
    None
}
