//! The control functions of the console (book, chapter 15, `ttycontrol.c`; the numbers are those of this profile).

ghost use Rattle.std.specs.Prelude.{◌≡◌, IfOk, IfNone, false, option_map};
ghost use Rattle.reference_devices.specs.Received.{came_to};
ghost use Rattle.xinu_model.specs.Console.Controls as model;

use crate::receiving::commit_line;
use reference_state::Console;
use xinu_base::{NoMemory, TtyMode};

/// A control function: 1 is raw mode, 2 cbreak mode, 3 cooked mode, 5 echo on, 6 echo off; the first two commit the line. The answer is how
/// many items were committed. `None`, and nothing changes, if and only if there is no such function.
pub(crate) fn control(c: &mut Console, f: u32) -> Result<Option<usize>, NoMemory>
    ensures controlled { IfOk result (λ r. option_map (came_to c.new) r ≡ model.controlled f c.old) }
    ensures stays { IfOk result (λ r. IfNone r (c.new ≡ c.old)) }
{
    match f {
        1 => {
            set_mode(c, TtyMode::Raw);
            let_go(c);
            Ok(Some(commit_line(c)?))
        }
        2 => {
            set_mode(c, TtyMode::Cbreak);
            Ok(Some(commit_line(c)?))
        }
        3 => {
            set_mode(c, TtyMode::Cooked);
            Ok(Some(0))
        }
        5 => {
            set_echo(c, true);
            Ok(Some(0))
        }
        6 => {
            set_echo(c, false);
            Ok(Some(0))
        }
        _ => Ok(None),
    }
}

// The console in another mode.
fn set_mode(c: &mut Console, mode: TtyMode)
    ensures mode { c.new ≡ model.in_mode mode c.old }
{
    c.mode = mode;
}

// Output goes on.
fn let_go(c: &mut Console)
    ensures goes_on { c.new ≡ record c.old { is_held = false } }
{
    c.is_held = false;
}

// The console with echo on or off.
fn set_echo(c: &mut Console, on: bool)
    ensures echoes { c.new ≡ record c.old { echoes = on } }
{
    c.echoes = on;
}
