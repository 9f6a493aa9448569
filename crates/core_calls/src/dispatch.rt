//! The calls on processes and ports by their numbers, what is left of those that wait, and a tick of the clock.

ghost use Rattle.std.specs.Prelude.{ℕ, ◌≡◌, ◌≢◌, ◌<◌, ◌||◌, true, false};
ghost use Rattle.kernel_state.specs.Calling.{IsCalling};
ghost use Rattle.kernel_state.specs.Results.{came_to, IsStart};
ghost use Rattle.kernel_state.specs.Families.{is_on_device};
ghost use Rattle.xinu_base.specs.Syscalls.{is_of};
ghost use Rattle.xinu_base.specs.declared.syscalls.Family.TheVariants as family;
ghost use Rattle.part_laws.specs.Preserve.{ticking};
ghost use Rattle.xinu_model.specs.Calls.{called, continued};
ghost use Rattle.xinu_model.specs.Machine.{Silent};
ghost use Rattle.xinu_model.specs.Ports.Queues.{port_at};
ghost use Rattle.xinu_model.specs.Tables.{process_at, state_at};

use crate::clock_calls::{clktime, sleep, sleepms};
use crate::creation::create;
use crate::memory_calls::{freemem, freestk, getmem, getstk};
use crate::message_calls::{go_on_receive, receive, recvclr, recvtime, send};
use crate::pool_calls::{freebuf, getbuf, go_on_getbuf, mkbufpool};
use crate::port_calls::{go_on_ptrecv, go_on_ptsend, ptcreate, ptdelete, ptrecv, ptreset, ptsend};
use crate::process_calls::{
    chprio, exit, getpid, getprio, go_on_suspend, kill, resume, suspend, yield_now,
};
use crate::semaphore_calls::{semcount, semcreate, semdelete, semreset, signal, signaln, wait};
use kernel_state::{Creation, KernelState, answer_released, half, signed};
use xinu_base::{Call, Next, Rest, SYSERR, State, each_call};

/// Begins a call on processes or ports: what comes of it is what the row of its number gives.
///
/// Nothing was done yet in this event, the current process isn't the null process, and the state is sound (`kernel_state/specs/Calling`).
/// The number of each port can rise: it is below 4294967295.
#[tactic(auto, unfolding(xinu_model::specs::Calls::calls))]
pub fn begin(k: &mut KernelState, call: Call) -> Next
    requires core { (is_of family.Processes call.number || is_of family.Ports call.number) ≡ true }
    requires calling { IsCalling k.old.call }
    requires numbers { (q : ℕ) → (port_at k.old.call.state.parts.ports q).seq < 4294967295 }
    ensures called { came_to k.new.call result ≡ called call.number call.args k.old.call.state }
    ensures image { k.new.image ≡ k.old.image }
{
    let args = call.args;
    macro_rules! begins {
        (
            Processes { $($number:literal $name:literal $count:literal $begin:expr;)* }
            Ports { $($port_number:literal $port_name:literal $port_count:literal $port_begin:expr;)* }
            Devices { $($others:tt)* }
        ) => {
            match call.number {
                $($number => $begin,)*
                $($port_number => $port_begin,)*
                _ => Next::Returns(SYSERR),
            }
        };
    }
    each_call!(begins, k, args)
}

/// Does what is left of the current process's call: the end of a self-suspension, a buffer, a message to or from a port, or the receipt of
/// a message.
///
/// Something is left of the call, and it isn't a call on a device. As when a call begins, nothing was done yet in this event, the current
/// process isn't the null process, and the state is sound.
pub fn go_on(k: &mut KernelState) -> Next
    requires calling { IsCalling k.old.call }
    requires core { is_on_device (process_at k.old.call.state.tables k.old.call.state.tables.current).rest ≡ false }
    requires waits { (process_at k.old.call.state.tables k.old.call.state.tables.current).rest ≢ Rest.Nothing }
    ensures continued { came_to k.new.call result ≡ continued (process_at k.old.call.state.tables k.old.call.state.tables.current).rest k.old.call.state }
    ensures image { k.new.image ≡ k.old.image }
{
    match k.tables.rest() {
        Rest::SelfSuspend => go_on_suspend(k),
        Rest::GetBuf(i) => go_on_getbuf(k, i),
        Rest::PtSend(ticket, message) => go_on_ptsend(k, ticket, message),
        Rest::PtRecv(ticket) => go_on_ptrecv(k, ticket),
        _ => go_on_receive(k),
    }
}

/// A tick of the clock, with its own reschedules. Nothing was done yet in this event, the current process runs, and the ticks don't wrap:
/// they are below 4294967295.
pub fn tick(k: &mut KernelState)
    requires start { IsStart k.old.call }
    requires runs { state_at k.old.call.state.tables k.old.call.state.tables.current ≡ State.Current }
    requires few { k.old.call.state.tables.ticks < 4294967295 }
    ensures ticks { record { call = k.new.call; answer = Silent } ≡ ticking k.old.call.state }
    ensures image { k.new.image ≡ k.old.image }
{
    let woken = k.tables.tick();
    answer_released(&mut k.replies, &k.tables, woken.as_slice(), 0);
}
