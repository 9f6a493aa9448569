//! The top call: it does what the arguments say and answers the exit status.

ghost use Rattle.std.specs.Prelude.{map, option_map};
ghost use Rattle.std.specs.String.{string_bytes};
ghost use Rattle.command_line.specs.Commands.{command_of};
ghost use Rattle.xinu_commands.specs.Stages.{left_by};
ghost use Rattle.xinu_commands.specs.Theorem.{Answers};

use crate::commands::{Done, carry_out};
use host_port::Host;
use machine::Machine;
use run_inputs::refuse;
use std::alloc::Global;

/// Does what the arguments after the program's name say, and answers the exit status.
///
/// The status is 0 if the command was done: the transcript of the run was written on Out, or if it is plain the bytes of its console alone,
/// and its disks in their files, or the file of a text that was assembled, or `yes` for a trace that is the transcript of a run, or the output
/// of an action on a disk on Out and in its file. It is 2 if the arguments give no command, 3 if the host failed, 4 if an image file has a
/// fault, 5 if the schedule file has one, 6 if a disk breaks a rule, 7 if memory ran out, 8 if an image overlaps an earlier one or the heap
/// has no room for the stack of one, 9 if the text has a fault, 10 after `no` for a trace that is no transcript, 11 if the trace is too long,
/// 12 if the disk has no file of the name, and 13 if the file doesn't fit. Each but 0 and 10 sends its text on Fault. Afterwards `last` is the
/// machine as the run left it if a run or a soak test was done, and else None.
pub fn xinu<H: Host>(alloc: Global, args: &[String], host: &mut H, last: &mut Option<Machine>) -> u8
    ensures answers { Answers result (command_of (map string_bytes args.now)) (H.view host.old) (H.view host.new) (option_map left_by last.new) }
{
    *last = None;
    match carry_out(alloc, args, host) {
        Ok(Done { status, machine }) => {
            *last = machine;
            status
        }
        Err(refusal) => refuse(refusal, host),
    }
}
