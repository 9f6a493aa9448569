//! Events: a step of the current process, a tick of the clock, the interrupts of the console and of the disks, the printing of the tables
//! (book, chapters 12, 13, 15, 18 and 19).

ghost use Rattle.std.specs.Prelude.{ℕ, ◌≡◌, ◌≢◌, ◌<◌, ◌≤◌, ◌+◌, ◌∷◌, [], map};
ghost use Rattle.kernel_state.specs.Results.{answer_so_far, IsIdle};
ghost use Rattle.host_port.specs.Printing.{Prints};
ghost use Rattle.machine.specs.Disks.{ChangesDisk};
ghost use Rattle.machine.specs.FileEffects.{ChosenPrints, ReactPrints};
ghost use Rattle.machine.specs.Printed.{EffectPrints, EventPrints};
ghost use Rattle.xinu_base.specs.declared.events.Event.TheVariants as events;
ghost use Rattle.xinu_base.specs.declared.registers.Outcome.TheVariants as outcomes;
ghost use Rattle.xinu_model.specs.Files.Syscalls.{files_of};
ghost use Rattle.xinu_model.specs.Clock.{ticked};
ghost use Rattle.xinu_model.specs.Console.Signals.{keyed, transmits};
ghost use Rattle.xinu_model.specs.Events.{panics_in};
ghost use Rattle.xinu_model.specs.Machine as model;
ghost use Rattle.xinu_model.specs.Ports.Queues.{port_at};
ghost use Rattle.xinu_model.specs.Process.Death.{exit};
ghost use Rattle.xinu_model.specs.RawDisk.Calls.{disk_completes};
ghost use Rattle.xinu_model.specs.Sound.State.{IsSound};
ghost use Rattle.xinu_model.specs.Text.{shown};

use crate::printing::{
    print_line, print_made, print_notes, print_replies, print_reply, print_switch,
};
use crate::tables::print_tables;
use host_port::{Host, Printer};
use kernel::Kernel;
use rv_hart::Outcome;
use xinu_base::{Event, Next, Pid, TranscriptLine};

/// Takes one event and prints its lines. Whether the kernel panicked in it.
pub(crate) fn happen<H: Host>(
    kernel: &mut Kernel,
    event: Event,
    out: &mut Printer,
    host: &mut H,
) -> bool
    requires idle { IsIdle kernel.old.came }
    requires sound { IsSound kernel.old.came.call.state }
    requires few { kernel.old.came.call.state.tables.ticks < 1000000000 }
    requires numbers { (q : ℕ) → (port_at kernel.old.came.call.state.parts.ports q).seq < 1000000000 }
    ensures happens { EventPrints kernel.old.came.call.state event kernel.new.came.call.state out.old out.new (H.view host.old) (H.view host.new) }
    ensures panics { result ≡ panics_in kernel.old.came.call.state event }
    ensures idle { IsIdle kernel.new.came }
    ensures sound { IsSound kernel.new.came.call.state }
    ensures ticks { kernel.new.came.call.state.tables.ticks ≤ kernel.old.came.call.state.tables.ticks + 1 }
    ensures numbers { (q : ℕ) → (port_at kernel.new.came.call.state.parts.ports q).seq ≤ (port_at kernel.old.came.call.state.parts.ports q).seq + 1 }
    ensures image { ChangesDisk event (files_of kernel.old.came.call.state) kernel.old.image kernel.new.image }
{
    match event {
        Event::Step => step(kernel, out, host),
        _ => other_event(kernel, event, out, host),
    }
}

// Takes one event that isn't a step, and prints its lines. Whether the kernel panicked in it. A failed completion of the files' disk does
// nothing.
#[cold]
fn other_event<H: Host>(kernel: &mut Kernel, event: Event, out: &mut Printer, host: &mut H) -> bool
    requires idle { IsIdle kernel.old.came }
    requires sound { IsSound kernel.old.came.call.state }
    requires few { kernel.old.came.call.state.tables.ticks < 1000000000 }
    requires not_step { event ≢ Event.Step }
    ensures effect { ChosenPrints kernel.old.came.call.state event kernel.new.came.call.state result out.old out.new (H.view host.old) (H.view host.new) }
    ensures idle { IsIdle kernel.new.came }
    ensures sound { IsSound kernel.new.came.call.state }
    ensures image { ChangesDisk event (files_of kernel.old.came.call.state) kernel.old.image kernel.new.image }
{
    match event {
        Event::Tick => tick(kernel, out, host),
        Event::Key(b) => receive(kernel, b, out, host),
        Event::Tx => transmit(kernel, out, host),
        Event::Disk0 => complete(kernel, true, out, host),
        Event::Fail0 => complete(kernel, false, out, host),
        Event::Disk1 => complete_files(kernel, out, host),
        Event::Dump => {
            print_tables(kernel.state(), out, host);
            false
        }
        _ => false,
    }
}

// A step: nothing if the null process is current, else what is left of the current process's call, else an instruction.
fn step<H: Host>(kernel: &mut Kernel, out: &mut Printer, host: &mut H) -> bool
    requires idle { IsIdle kernel.old.came }
    requires sound { IsSound kernel.old.came.call.state }
    requires numbers { (q : ℕ) → (port_at kernel.old.came.call.state.parts.ports q).seq < 1000000000 }
    ensures effect { ChosenPrints kernel.old.came.call.state events.Step kernel.new.came.call.state result out.old out.new (H.view host.old) (H.view host.new) }
    ensures idle { IsIdle kernel.new.came }
    ensures sound { IsSound kernel.new.came.call.state }
    ensures image { kernel.new.image ≡ kernel.old.image }
{
    let current = kernel.current();
    if current == Pid::default() {
        return false;
    }
    if !kernel.is_done() {
        kernel.go_on_core();
        return end_event(kernel, current, out, host);
    }
    let outcome = kernel.instruction();
    react(kernel, outcome, out, host)
}

// What comes of an instruction of the current process, which isn't the null process.
fn react<H: Host>(kernel: &mut Kernel, outcome: Outcome, out: &mut Printer, host: &mut H) -> bool
    requires idle { IsIdle kernel.old.came }
    requires sound { IsSound kernel.old.came.call.state }
    requires numbers { (q : ℕ) → (port_at kernel.old.came.call.state.parts.ports q).seq < 1000000000 }
    requires not_null { kernel.old.came.call.state.tables.current ≢ 0 }
    ensures effect { ReactPrints outcome kernel.old.came.call.state kernel.new.came.call.state result out.old out.new (H.view host.old) (H.view host.new) }
    ensures idle { IsIdle kernel.new.came }
    ensures sound { IsSound kernel.new.came.call.state }
    ensures image { kernel.new.image ≡ kernel.old.image }
{
    let current = kernel.current();
    match outcome {
        Outcome::Went => false,
        Outcome::Call => make_call(kernel, out, host),
        Outcome::Exit => {
            let mut call = kernel.call_of();
            call.number = 9;
            die(kernel, TranscriptLine::Call(current, call), out, host)
        }
        Outcome::Trap(cause) => die(kernel, TranscriptLine::Trap(current, cause), out, host),
    }
}

// The call that the registers of the current process ask for, which isn't the null process. If it takes effect on files as it is made, the
// line of that follows its own.
#[cold]
fn make_call<H: Host>(kernel: &mut Kernel, out: &mut Printer, host: &mut H) -> bool
    requires idle { IsIdle kernel.old.came }
    requires not_null { kernel.old.came.call.state.tables.current ≢ 0 }
    requires numbers { (q : ℕ) → (port_at kernel.old.came.call.state.parts.ports q).seq < 1000000000 }
    ensures effect { ReactPrints outcomes.Call kernel.old.came.call.state kernel.new.came.call.state result out.old out.new (H.view host.old) (H.view host.new) }
    ensures idle { IsIdle kernel.new.came }
    ensures sound { IsSound kernel.new.came.call.state }
    ensures image { kernel.new.image ≡ kernel.old.image }
{
    let current = kernel.current();
    let call = kernel.call_of();
    print_line(&TranscriptLine::Call(current, call), out, host);
    let begun = kernel.begin_core(call);
    print_made(begun, current, out, host);
    end_event(kernel, current, out, host)
}

// The current process, which isn't the null process, dies. The line says why.
#[cold]
fn die<H: Host>(kernel: &mut Kernel, why: TranscriptLine, out: &mut Printer, host: &mut H) -> bool
    requires idle { IsIdle kernel.old.came }
    requires not_null { kernel.old.came.call.state.tables.current ≢ 0 }
    ensures effect { EffectPrints (model.end_of_event kernel.old.came.call.state.tables.current (why ∷ []) (exit kernel.old.came.call.state)) kernel.new.came.call.state result out.old out.new (H.view host.old) (H.view host.new) }
    ensures idle { IsIdle kernel.new.came }
    ensures sound { IsSound kernel.new.came.call.state }
    ensures image { kernel.new.image ≡ kernel.old.image }
{
    let current = kernel.current();
    print_line(&why, out, host);
    kernel.die();
    end_event(kernel, current, out, host)
}

// A tick of the clock.
fn tick<H: Host>(kernel: &mut Kernel, out: &mut Printer, host: &mut H) -> bool
    requires idle { IsIdle kernel.old.came }
    requires few { kernel.old.came.call.state.tables.ticks < 1000000000 }
    ensures effect { EffectPrints (ticked kernel.old.came.call.state) kernel.new.came.call.state result out.old out.new (H.view host.old) (H.view host.new) }
    ensures idle { IsIdle kernel.new.came }
    ensures sound { IsSound kernel.new.came.call.state }
    ensures image { kernel.new.image ≡ kernel.old.image }
{
    let current = kernel.current();
    kernel.on_tick();
    end_event(kernel, current, out, host)
}

// A character is received from the console.
fn receive<H: Host>(kernel: &mut Kernel, b: u8, out: &mut Printer, host: &mut H) -> bool
    requires idle { IsIdle kernel.old.came }
    ensures effect { EffectPrints (keyed b kernel.old.came.call.state) kernel.new.came.call.state result out.old out.new (H.view host.old) (H.view host.new) }
    ensures idle { IsIdle kernel.new.came }
    ensures sound { IsSound kernel.new.came.call.state }
    ensures image { kernel.new.image ≡ kernel.old.image }
{
    let current = kernel.current();
    kernel.on_type(b);
    end_event(kernel, current, out, host)
}

// The console may send a byte, whose line comes first.
fn transmit<H: Host>(kernel: &mut Kernel, out: &mut Printer, host: &mut H) -> bool
    requires idle { IsIdle kernel.old.came }
    requires sound { IsSound kernel.old.came.call.state }
    ensures effect { EffectPrints (transmits kernel.old.came.call.state) kernel.new.came.call.state result out.old out.new (H.view host.old) (H.view host.new) }
    ensures idle { IsIdle kernel.new.came }
    ensures sound { IsSound kernel.new.came.call.state }
    ensures image { kernel.new.image ≡ kernel.old.image }
{
    let current = kernel.current();
    match kernel.on_tx() {
        Some(b) => {
            print_line(&TranscriptLine::Con(b), out, host);
            end_event(kernel, current, out, host)
        }
        None => false,
    }
}

// The raw disk completes its first request, well or badly, if one waits.
fn complete<H: Host>(kernel: &mut Kernel, good: bool, out: &mut Printer, host: &mut H) -> bool
    requires idle { IsIdle kernel.old.came }
    ensures effect { EffectPrints (disk_completes good kernel.old.came.call.state) kernel.new.came.call.state result out.old out.new (H.view host.old) (H.view host.new) }
    ensures idle { IsIdle kernel.new.came }
    ensures sound { IsSound kernel.new.came.call.state }
    ensures image { kernel.new.image ≡ kernel.old.image }
{
    let current = kernel.current();
    kernel.on_disk(good);
    end_event(kernel, current, out, host)
}

// The files' disk completes well. What happened to the calls on files under way is told first.
fn complete_files<H: Host>(kernel: &mut Kernel, out: &mut Printer, host: &mut H) -> bool
    requires idle { IsIdle kernel.old.came }
    ensures effect { ChosenPrints kernel.old.came.call.state events.Disk1 kernel.new.came.call.state result out.old out.new (H.view host.old) (H.view host.new) }
    ensures idle { IsIdle kernel.new.came }
    ensures sound { IsSound kernel.new.came.call.state }
    ensures image { ChangesDisk events.Disk1 (files_of kernel.old.came.call.state) kernel.old.image kernel.new.image }
{
    let current = kernel.current();
    let notes = kernel.on_files();
    print_notes(notes.as_slice(), out, host);
    end_event(kernel, current, out, host)
}

// Ends an event that began in process `was`: prints the replies to released processes, the caller's and the switch. Whether the kernel
// panicked.
#[cold]
fn end_event<H: Host>(kernel: &mut Kernel, was: Pid, out: &mut Printer, host: &mut H) -> bool
    ensures effect { EffectPrints (model.end_of_event was [] kernel.old.came) kernel.new.came.call.state result out.old out.new (H.view host.old) (H.view host.new) }
    ensures idle { IsIdle kernel.new.came }
    ensures sound { IsSound kernel.new.came.call.state }
    ensures image { kernel.new.image ≡ kernel.old.image }
{
    let answer = kernel.answer();
    print_answers(kernel, out, host);
    kernel.close_event();
    print_switch(was, kernel.current(), out, host);
    is_panic(answer)
}

// Prints the replies to released processes, and the caller's.
fn print_answers<H: Host>(kernel: &Kernel, out: &mut Printer, host: &mut H)
    ensures prints { Prints out.old out.new (H.view host.old) (H.view host.new) (shown out.old.plain (map model.return_line (model.replies_of kernel.now.came))) }
{
    print_replies(kernel.state().released(), out, host);
    match kernel.answer() {
        Some(Next::Returns(value)) => print_reply(kernel.current(), value, out, host),
        _ => {}
    }
}

// Whether the kernel panicked, by its answer.
fn is_panic(answer: Option<Next>) -> bool
    ensures panic { result ≡ model.is_panic (answer_so_far answer) }
{
    matches!(answer, Some(Next::Panics))
}
