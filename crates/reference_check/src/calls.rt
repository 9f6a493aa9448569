//! The calls by their families, and what is left of those that waited.

ghost use Rattle.std.specs.Prelude.{◌≡◌, IfOk};
ghost use Rattle.reference_state.specs.Answers.{came_to, IsStart};
ghost use Rattle.reference_check.specs.Leaving.{Leaves};
ghost use Rattle.reference_switch.specs.Outcomes.{comes_to};
ghost use Rattle.reference_check.specs.Bounds.{IsWithin};
ghost use Rattle.xinu_model.specs.Calls as model;
ghost use Rattle.xinu_model.specs.Tables.{process_at};

use reference_calls::dispatch::{core_call, core_continued};
use reference_devices::console_reads::{go_on_getc, go_on_read};
use reference_devices::console_writes::{go_on_putc, go_on_write};
use reference_devices::disk::go_on_disk;
use reference_ports::dispatch::port_call;
use reference_ports::pools::go_on_getbuf;
use reference_ports::ports::{go_on_ptrecv, go_on_ptsend};
use reference_state::{Answer, Machine};
use reference_switch::DeviceOutcome;
use reference_switch::dispatch::device_call;
use xinu_base::{Call, Family, NoMemory, Rest, SYSERR, family_of};

/// What the call of this number does with its arguments; a number without a call is refused. A call on files is asked for, and not made.
pub(crate) fn called(m: &mut Machine, call: Call) -> Result<DeviceOutcome, NoMemory>
    requires start { IsStart m.old }
    requires within { IsWithin 1000000000 m.old.state }
    ensures called { IfOk result (λ r. comes_to m.new r ≡ model.called call.number call.args m.old.state) }
    ensures leaves { IfOk result (λ r. Leaves m.old r m.new) }
{
    match family_of(call.number) {
        Some(Family::Processes) => Ok(DeviceOutcome::Done(core_call(m, call)?)),
        Some(Family::Ports) => Ok(DeviceOutcome::Done(port_call(m, call)?)),
        Some(Family::Devices) => device_call(m, call),
        None => Ok(DeviceOutcome::Done(Answer::Returns(SYSERR))),
    }
}

/// What the first step of a process does that waited in a call, once it is current again.
pub(crate) fn continued(m: &mut Machine) -> Result<Answer, NoMemory>
    requires start { IsStart m.old }
    requires within { IsWithin 1000000000 m.old.state }
    ensures continued { IfOk result (λ a. came_to m.new a ≡
        model.continued (process_at m.old.state.tables m.old.state.tables.current).rest m.old.state) }
{
    match rest_of(m) {
        Rest::GetBuf(i) => go_on_getbuf(m, i),
        Rest::PtSend(ticket, message) => go_on_ptsend(m, ticket, message),
        Rest::PtRecv(ticket) => go_on_ptrecv(m, ticket),
        Rest::TtyGet => go_on_getc(m),
        Rest::TtyRead(part) => go_on_read(m, part),
        Rest::TtyPut(b, returned) => go_on_putc(m, b, returned),
        Rest::TtyWrite(part, returned) => go_on_write(m, part, returned),
        Rest::Disk(reply) => go_on_disk(m, reply),
        Rest::Nothing => Ok(Answer::Silent),
        Rest::Receive | Rest::Timed | Rest::SelfSuspend => core_continued(m),
    }
}

// What is left of the current process's call.
fn rest_of(m: &Machine) -> Rest
    ensures rest { result ≡ (process_at m.now.state.tables m.now.state.tables.current).rest }
{
    m.process_at(m.current()).rest
}
