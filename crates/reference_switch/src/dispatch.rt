//! The calls on devices and names by their numbers.

ghost use Rattle.std.specs.Prelude.{◌≡◌, IfOk, true};
ghost use Rattle.reference_state.specs.Answers.{IsStart};
ghost use Rattle.reference_switch.specs.Outcomes.{comes_to, LeavesFiles};
ghost use Rattle.xinu_base.specs.Syscalls.{is_of};
ghost use Rattle.xinu_base.specs.declared.syscalls.Family.TheVariants.{Devices};
ghost use Rattle.xinu_model.specs.Calls as model;
ghost use Rattle.xinu_model.specs.Sound.State.{IsSound};

use crate::calls::{
    device_close, device_control, device_getc, device_open, device_putc, device_read, device_seek,
    device_write,
};
use crate::name_calls::mount;
use crate::outcomes::DeviceOutcome;
use reference_state::{Answer, Machine};
use xinu_base::{Call, NoMemory, SYSERR, each_call};

/// What the call of this number does with its arguments, for the calls on devices and names. A call on files is asked for, and not made.
#[tactic(auto, using(crate::proofs::Stays::leaves_same_ok), unfolding(xinu_model::specs::Calls::calls))]
pub fn device_call(m: &mut Machine, call: Call) -> Result<DeviceOutcome, NoMemory>
    requires start { IsStart m.old }
    requires devices { is_of Devices call.number ≡ true }
    requires sound { IsSound m.old.state }
    ensures call { IfOk result (λ r. comes_to m.new r ≡ model.called call.number call.args m.old.state) }
    ensures files { IfOk result (λ r. LeavesFiles m.old r m.new) }
{
    let args = call.args;
    macro_rules! calls {
        (
            Processes { $($process_calls:tt)* }
            Ports { $($port_calls:tt)* }
            Devices { $($number:literal $name:literal $count:literal $call:expr;)* }
        ) => {
            match call.number {
                $($number => $call,)*
                _ => Ok(DeviceOutcome::Done(Answer::Returns(SYSERR))),
            }
        };
    }
    each_call!(calls, m, args)
}
