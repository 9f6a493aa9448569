//! The calls on the clock, 25 to 27 (book, chapter 13, `sleep.c`, `sleepms.c`).
//!
//! Each is the row of its number in the abstract machine's table. Call 6, `yield`, is with the calls on processes.

ghost use Rattle.std.specs.Prelude.{◌≡◌, ◌≢◌};
ghost use Rattle.kernel_state.specs.Results.{came_to, IsStart};
ghost use Rattle.xinu_model.specs.Clock as model;
ghost use Rattle.xinu_model.specs.Sound.Tables.{IsSoundTables};

use crate::process_calls::yield_now;
use kernel_state::KernelState;
use xinu_base::{Next, SYSERR};

/// Call 25: the caller sleeps so many seconds. Refused if they are negative or more than 2147483.
pub(crate) fn sleep(k: &mut KernelState, seconds: i32) -> Next
    requires start { IsStart k.old.call }
    requires sound { IsSoundTables k.old.call.state.tables }
    requires not_null { k.old.call.state.tables.current ≢ 0 }
    ensures sleep { came_to k.new.call result ≡ model.sleep seconds k.old.call.state }
    ensures image { k.new.image ≡ k.old.image }
{
    if seconds < 0 {
        return Next::Returns(SYSERR);
    }
    if seconds > 2_147_483 {
        return Next::Returns(SYSERR);
    }
    sleepms(k, 1000 * seconds)
}

/// Call 26: the caller sleeps so many ticks; for 0 it lets the others run. Refused if they are negative.
pub(crate) fn sleepms(k: &mut KernelState, delay: i32) -> Next
    requires start { IsStart k.old.call }
    requires sound { IsSoundTables k.old.call.state.tables }
    requires not_null { k.old.call.state.tables.current ≢ 0 }
    ensures sleepms { came_to k.new.call result ≡ model.sleepms delay k.old.call.state }
    ensures image { k.new.image ≡ k.old.image }
{
    if delay < 0 {
        return Next::Returns(SYSERR);
    }
    if delay == 0 {
        return yield_now(k);
    }
    k.tables.sleep(delay);
    Next::Waits
}

/// Call 27: the seconds since the start.
pub(crate) fn clktime(k: &KernelState) -> Next
    requires start { IsStart k.now.call }
    ensures clktime { came_to k.now.call result ≡ model.clktime k.now.call.state }
{
    Next::Returns(k.tables.seconds() as i32)
}
