//! Printing: one `emit` for each line; if the output is plain, one for each byte that the console sent.

ghost use Rattle.std.specs.Prelude.{◌∷◌, [], map};
ghost use Rattle.file_server.specs.Requests.{note_of};
ghost use Rattle.host_port.specs.Printing.{Prints};
ghost use Rattle.machine.specs.FileEffects.{made_lines};
ghost use Rattle.xinu_model.specs.Files.Syscalls.{file_line};
ghost use Rattle.xinu_model.specs.Machine.{return_line, switched};
ghost use Rattle.xinu_model.specs.Text.{shown};

use file_server::FileNote;
use host_port::{Host, Printer};
use kernel_state::Begun;
use transcript::render;
use xinu_base::{FileMoment, Pid, TranscriptLine};

/// Prints a line. If the output is plain, only the byte of a line `con` is printed, as it is.
pub(crate) fn print_line<H: Host>(line: &TranscriptLine, out: &mut Printer, host: &mut H)
    ensures prints { Prints out.old out.new (H.view host.old) (H.view host.new) (shown out.old.plain (line.now ∷ [])) }
{
    match line {
        TranscriptLine::Con(b) => out.con(host, *b),
        _ => out.line(host, &render(line)),
    }
}

/// Prints the replies to released processes, in order.
pub(crate) fn print_replies<H: Host>(replies: &[(Pid, i32)], out: &mut Printer, host: &mut H)
    ensures prints { Prints out.old out.new (H.view host.old) (H.view host.new) (shown out.old.plain (map return_line replies.now)) }
{
    for reply in replies {
        print_reply(reply.0, reply.1, out, host);
    }
}

/// Prints the reply to a process.
pub(crate) fn print_reply<H: Host>(p: Pid, value: i32, out: &mut Printer, host: &mut H)
    ensures prints { Prints out.old out.new (H.view host.old) (H.view host.new) (shown out.old.plain (return_line (p, value) ∷ [])) }
{
    print_line(&TranscriptLine::Return(p, value), out, host);
}

/// Prints that the call that a process made took effect on files as it was made, if it did.
pub(crate) fn print_made<H: Host>(begun: Begun, p: Pid, out: &mut Printer, host: &mut H)
    ensures prints { Prints out.old out.new (H.view host.old) (H.view host.new) (shown out.old.plain (made_lines begun p)) }
{
    match begun {
        Begun::ByRow(_) => {}
        Begun::AtOnce(_) => {
            print_line(&TranscriptLine::File(p, FileMoment::Finished), out, host);
        }
    }
}

/// Prints what happened to calls on files, in order.
pub(crate) fn print_notes<H: Host>(notes: &[FileNote], out: &mut Printer, host: &mut H)
    ensures prints { Prints out.old out.new (H.view host.old) (H.view host.new) (shown out.old.plain (map file_line (map note_of notes.now))) }
{
    for note in notes {
        print_note(note, out, host);
    }
}

// Prints what happened to a call on files. Of one whose caller was killed it names process 0.
fn print_note<H: Host>(note: &FileNote, out: &mut Printer, host: &mut H)
    ensures prints { Prints out.old out.new (H.view host.old) (H.view host.new) (shown out.old.plain (file_line (note_of note.now) ∷ [])) }
{
    let caller = match note.caller {
        Some(p) => p,
        None => Pid::default(),
    };
    print_line(&TranscriptLine::File(caller, note.moment), out, host);
}

/// Prints who runs now, if it is another process than before.
pub(crate) fn print_switch<H: Host>(was: Pid, is: Pid, out: &mut Printer, host: &mut H)
    ensures prints { Prints out.old out.new (H.view host.old) (H.view host.new) (shown out.old.plain (switched was is)) }
{
    if was != is {
        print_line(&TranscriptLine::Switch(is), out, host);
    }
}
