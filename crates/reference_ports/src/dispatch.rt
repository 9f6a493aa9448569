//! The calls on buffer pools and ports by their numbers.

ghost use Rattle.std.specs.Prelude.{◌≡◌, ◌<◌, ℕ, IfOk, true};
ghost use Rattle.reference_state.specs.Answers.{came_to, IsStart};
ghost use Rattle.xinu_base.specs.Syscalls.{is_of};
ghost use Rattle.xinu_base.specs.declared.syscalls.Family.TheVariants as family;
ghost use Rattle.xinu_model.specs.Calls as model;
ghost use Rattle.xinu_model.specs.Ports.Queues.{port_at};
ghost use Rattle.xinu_model.specs.Sound.Pools.{ArePools};
ghost use Rattle.xinu_model.specs.Sound.Ports.{ArePorts};
ghost use Rattle.xinu_model.specs.Sound.Tables.{IsSoundTables};

use crate::new_pools::mkbufpool;
use crate::pools::{freebuf, getbuf};
use crate::ports::{ptcreate, ptdelete, ptrecv, ptreset, ptsend};
use reference_calls::words::signed;
use reference_state::{Answer, Machine};
use xinu_base::{Call, NoMemory, SYSERR, each_call};

/// What the call of this number does with its arguments, for the calls on buffer pools and ports.
#[tactic(auto, unfolding(xinu_model::specs::Calls::calls))]
pub fn port_call(m: &mut Machine, call: Call) -> Result<Answer, NoMemory>
    requires start { IsStart m.old }
    requires ports { is_of family.Ports call.number ≡ true }
    requires sound { IsSoundTables m.old.state.tables }
    requires sound_pools { ArePools m.old.state.tables m.old.state.parts.pools }
    requires sound_ports { ArePorts m.old.state.tables m.old.state.parts.ports }
    requires numbers { (q : ℕ) → (port_at m.old.state.parts.ports q).seq < 4294967295 }
    ensures call { IfOk result (λ a. came_to m.new a ≡ model.called call.number call.args m.old.state) }
{
    let args = call.args;
    macro_rules! calls {
        (
            Processes { $($process_calls:tt)* }
            Ports { $($number:literal $name:literal $count:literal $call:expr;)* }
            Devices { $($device_calls:tt)* }
        ) => {
            match call.number {
                $($number => $call,)*
                _ => Ok(Answer::Returns(SYSERR)),
            }
        };
    }
    each_call!(calls, m, args)
}
