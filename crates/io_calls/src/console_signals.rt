//! What the console tells those who wait for it: a character is received, a byte is sent, and a control function may commit a line (book,
//! chapter 15, `ttyhandle_in.c`, `ttyhandle_out.c`, `ttycontrol.c`).
//!
//! Each item that is committed is a signal of the input, and each byte of output that was sent one of the output.

ghost use Rattle.std.specs.Prelude.{◌≡◌, ◌≤◌, option_map};
ghost use Rattle.io_calls.specs.Consoles.{after_sending, Begins};
ghost use Rattle.kernel_state.specs.Results.{came_to, IsStart};
ghost use Rattle.xinu_model.specs.Console.Signals as model;
ghost use Rattle.xinu_model.specs.Console.Taking.{console_of, TY_ISEM};
ghost use Rattle.xinu_model.specs.Console.Transmitting.{transmitted};
ghost use Rattle.xinu_model.specs.Machine.{Silent};
ghost use Rattle.xinu_model.specs.Semaphores.Waiting.{signalled_times};
ghost use Rattle.xinu_model.specs.Sound.Console.{IsConsole};
ghost use Rattle.xinu_model.specs.Sound.Tables.{IsSoundTables};
ghost use Rattle.xinu_model.specs.Tables.{semaphore_at};

use crate::console_tokens::{input_sem, input_tokens, output_sem};
use kernel_state::KernelState;
use xinu_base::{Next, SYSERR};

// The control function that answers how many items can be taken.
const TC_ICHARS: u32 = 4;

/// A character is received. Tables and console are sound, and nothing was done yet in this event.
pub fn on_type(k: &mut KernelState, b: u8)
    requires start { IsStart k.old.call }
    requires sound { IsSoundTables k.old.call.state.tables }
    requires console { IsConsole k.old.call.state.tables (console_of k.old.call.state) }
    ensures received { record { call = k.new.call; answer = Silent } ≡ model.receiving b k.old.call.state }
    ensures image { k.new.image ≡ k.old.image }
{
    let count = k.tty.receive(b);
    signal_items(k, count);
}

/// A byte is sent, the first of the echo or else of the output. `None` if and only if output is held or there is no byte. Tables and
/// console are sound, and nothing was done yet in this event.
pub fn on_tx(k: &mut KernelState) -> Option<u8>
    requires start { IsStart k.old.call }
    requires sound { IsSoundTables k.old.call.state.tables }
    requires console { IsConsole k.old.call.state.tables (console_of k.old.call.state) }
    ensures byte { result ≡ option_map (λ sent. sent.byte) (transmitted (console_of k.old.call.state)) }
    ensures sent { k.new.call ≡ after_sending (transmitted (console_of k.old.call.state)) k.old.call.state }
    ensures image { k.new.image ≡ k.old.image }
{
    let (b, is_output) = k.tty.transmit()?;
    if is_output {
        k.give_token(output_sem());
    }
    Some(b)
}

/// `control` of the console: how many items can be taken, or another mode or echo. Refused if there is no such function.
pub(crate) fn console_control(k: &mut KernelState, f: u32) -> Next
    requires begins { Begins k.old.call }
    ensures control { came_to k.new.call result ≡ model.console_control f k.old.call.state }
    ensures image { k.new.image ≡ k.old.image }
{
    if f == TC_ICHARS {
        return Next::Returns(input_tokens(k) as i32);
    }
    match k.tty.control(f) {
        Some(count) => {
            signal_items(k, count);
            Next::Returns(0)
        }
        None => Next::Returns(SYSERR),
    }
}

// Items were committed: each is a signal of the input.
fn signal_items(k: &mut KernelState, count: u32)
    requires start { IsStart k.old.call }
    requires sound { IsSoundTables k.old.call.state.tables }
    requires few { count ≤ 128 }
    requires tokens { (semaphore_at k.old.call.state.tables TY_ISEM).tokens ≤ 128 }
    ensures signalled { k.new.call ≡ signalled_times TY_ISEM count k.old.call }
    ensures image { k.new.image ≡ k.old.image }
{
    let released = k.tables.signaln(input_sem(), count);
    k.release(released.as_slice(), 0);
}
