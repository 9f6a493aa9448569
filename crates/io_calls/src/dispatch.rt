//! The calls on devices and names by their numbers, and what is left of those that wait.

ghost use Rattle.std.specs.Prelude.{◌≡◌, true};
ghost use Rattle.kernel_state.specs.Beginnings.{BeginsAs, next_of};
ghost use Rattle.kernel_state.specs.Families.{is_on_device};
ghost use Rattle.kernel_state.specs.Calling.{IsCalling};
ghost use Rattle.kernel_state.specs.Results.{came_to};
ghost use Rattle.xinu_base.specs.Syscalls.{is_of};
ghost use Rattle.xinu_base.specs.declared.syscalls.Family.TheVariants.{Devices};
ghost use Rattle.xinu_model.specs.Calls.{called, continued};
ghost use Rattle.xinu_model.specs.Tables.{process_at};

use crate::console_reads::{go_on_getc, go_on_read};
use crate::console_writes::{go_on_putc, go_on_write};
use crate::device_calls::{
    device_close, device_control, device_getc, device_open, device_putc, device_read, device_seek,
    device_write,
};
use crate::disk_calls::go_on_disk;
use crate::name_calls::mount;
use kernel_state::{Begun, KernelState};
use xinu_base::{Call, Next, Rest, SYSERR, each_call};

/// Begins a call on devices or names, of the current process, which isn't the null process. The state is sound, and nothing was done yet in
/// this event.
///
/// What comes of it is what the abstract machine's row of the number gives. Or it is a call on files that takes effect as it is made, which
/// the abstract machine allows if none is before it.
#[tactic(auto, unfolding(xinu_model::specs::Calls::calls))]
pub fn begin(k: &mut KernelState, call: Call) -> Begun
    requires io { is_of Devices call.number ≡ true }
    requires calling { IsCalling k.old.call }
    ensures called { BeginsAs result (called call.number call.args k.old.call.state) k.old.call.state (came_to k.new.call (next_of result)) }
    ensures image { k.new.image ≡ k.old.image }
{
    let args = call.args;
    macro_rules! begins {
        (
            Processes { $($process_calls:tt)* }
            Ports { $($port_calls:tt)* }
            Devices { $($number:literal $name:literal $count:literal $begin:expr;)* }
        ) => {
            match call.number {
                $($number => $begin,)*
                _ => Begun::ByRow(Next::Returns(SYSERR)),
            }
        };
    }
    each_call!(begins, k, args)
}

/// Does what is left of the current process's call on a device: items or bytes of the console, or the reply of a disk.
///
/// The current process isn't the null process, and has something left of such a call. The state is sound, and nothing was done yet in this
/// event.
pub fn go_on(k: &mut KernelState) -> Next
    requires calling { IsCalling k.old.call }
    requires io { is_on_device (process_at k.old.call.state.tables k.old.call.state.tables.current).rest ≡ true }
    ensures continued { came_to k.new.call result ≡ continued (process_at k.old.call.state.tables k.old.call.state.tables.current).rest k.old.call.state }
    ensures image { k.new.image ≡ k.old.image }
{
    match k.tables.rest() {
        Rest::TtyGet => go_on_getc(k),
        Rest::TtyRead(part) => go_on_read(k, part),
        Rest::TtyPut(b, returned) => go_on_putc(k, b, returned),
        Rest::TtyWrite(part, returned) => go_on_write(k, part, returned),
        Rest::Disk(reply) => go_on_disk(k, reply),
        _ => Next::Returns(SYSERR),
    }
}
