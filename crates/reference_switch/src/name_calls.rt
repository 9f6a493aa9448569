//! The call on the name space, `mount` (book, chapter 21).

ghost use Rattle.std.specs.Prelude.{◌≡◌, IfOk};
ghost use Rattle.reference_state.specs.Answers.{IsStart};
ghost use Rattle.reference_switch.specs.Outcomes.{comes_to, LeavesFiles};
ghost use Rattle.xinu_model.specs.Names.Calls as model;
ghost use Rattle.xinu_model.specs.Sound.State.{IsSound};

use crate::outcomes::DeviceOutcome;
use reference_devices::names;
use reference_state::Machine;
use xinu_base::NoMemory;

/// Call 44: the text at an address is mounted as a prefix, with another text in its place, for a device.
pub fn mount(
    m: &mut Machine,
    prefix: u32,
    replacement: u32,
    dev: u32,
) -> Result<DeviceOutcome, NoMemory>
    requires start { IsStart m.old }
    requires sound { IsSound m.old.state }
    ensures mount { IfOk result (λ r. comes_to m.new r ≡ model.mount prefix replacement dev m.old.state) }
    ensures files { IfOk result (λ r. LeavesFiles m.old r m.new) }
{
    Ok(DeviceOutcome::Done(names::mount(m, prefix, replacement, dev)?))
}
