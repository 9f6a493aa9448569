//! The calls of the machine, each with what it prints.

ghost use Rattle.std.specs.Prelude.{◌≡◌, ◌<◌, ◌+◌, ◌∷◌, [], false, is_some, IfOk, IsErrOf, MatchResult, None, Some};
ghost use Rattle.std.specs.Str.{IsUtf8};
ghost use Rattle.machine.specs.RunEnds.{end_of_go};
ghost use Rattle.replayed_run.specs.Lines.{IsPrinted};
ghost use Rattle.xinu_base.specs.declared.lines.TranscriptLine.TheVariants as line;
ghost use Rattle.xinu_model.specs.Events.{panics_in};
ghost use Rattle.xinu_model.specs.Runs.{end_with, is_over};
ghost use Rattle.xinu_model.specs.Text.{tables_of, text};

use crate::printed::{Printed, sent};
use host_port::{HostFault, Printer, QuietMemoryHost};
use machine::{Go, Machine};
use std::alloc::Global;
use xinu_base::Event;

/// An event that was taken: what it printed, and what it means for the run.
#[derive(Drop)]
pub struct Taken {
    /// What it printed.
    pub printed: Printed,
    /// What it means for the run.
    pub go: Go,
}

impl Taken {
    /// The bytes of its lines: what was printed.
    pub fn bytes(&self) -> &[u8]
        ensures bytes { result.now ≡ self.now.printed }
    {
        self.printed.bytes()
    }

    /// Its lines, as a text, if its bytes are one.
    pub fn lines(&self) -> &str
        ensures lines { IsUtf8 self.now.printed → result.now ≡ self.now.printed }
    {
        self.printed.lines()
    }
}

/// Takes an event, and answers what it printed, and what it means for the run. No event has ended the run before, and the machine took
/// fewer than 10^9 events.
///
/// # Errors
/// `NoMemory`. The event happened.
pub fn take(alloc: Global, machine: &mut Machine, event: Event) -> Result<Taken, HostFault>
    requires goes_on { machine.old.over ≡ false }
    requires few { machine.old.events < 1000000000 }
    ensures printed { MatchResult result (λ t. IsPrinted machine.old.state event machine.new.state (Some t.printed)) (λ _. IsPrinted machine.old.state event machine.new.state None) }
    ensures goes { IfOk result (λ t. end_of_go t.go ≡ end_with (panics_in machine.old.state event) (is_over machine.new.state)) }
    ensures ended { machine.new.over ≡ is_some (end_with (panics_in machine.old.state event) (is_over machine.new.state)) }
    ensures over { IfOk result (λ t. machine.new.over ≡ is_some (end_of_go t.go)) }
    ensures counted { machine.new.events ≡ machine.old.events + 1 }
    ensures cause { IsErrOf result HostFault.Failed → ⊥ }
{
    let (go, printed) = take_event(alloc, machine, event);
    match printed {
        Some(printed) => Ok(Taken { printed, go }),
        None => Err(HostFault::NoMemory),
    }
}

/// Takes an event, and answers what it means for the run, and what it printed unless memory ran out for that.
pub fn take_event(alloc: Global, machine: &mut Machine, event: Event) -> (Go, Option<Printed>)
    requires goes_on { machine.old.over ≡ false }
    requires few { machine.old.events < 1000000000 }
    ensures printed { IsPrinted machine.old.state event machine.new.state result.1 }
    ensures goes { end_of_go result.0 ≡ end_with (panics_in machine.old.state event) (is_over machine.new.state) }
    ensures over { machine.new.over ≡ is_some (end_of_go result.0) }
    ensures counted { machine.new.events ≡ machine.old.events + 1 }
{
    let mut host = QuietMemoryHost::new(alloc);
    let mut out = Printer::new(false);
    let go = machine.event(event, &mut out, &mut host);
    (go, sent(host, &out))
}

/// What a machine prints at its start: the line of the current process, which runs first.
///
/// # Errors
/// `NoMemory`.
pub fn start(alloc: Global, machine: &Machine) -> Result<Printed, HostFault>
    ensures printed { IfOk result (λ printed. printed ≡ text (line.Switch machine.now.state.tables.current ∷ [])) }
    ensures cause { IsErrOf result HostFault.Failed → ⊥ }
{
    let mut host = QuietMemoryHost::new(alloc);
    let mut out = Printer::new(false);
    machine.start(&mut out, &mut host);
    match sent(host, &out) {
        Some(printed) => Ok(printed),
        None => Err(HostFault::NoMemory),
    }
}

/// The lines of the tables of a machine's state.
///
/// # Errors
/// `NoMemory`.
pub fn tables(alloc: Global, machine: &Machine) -> Result<Printed, HostFault>
    ensures printed { IfOk result (λ printed. printed ≡ text (tables_of machine.now.state)) }
    ensures cause { IsErrOf result HostFault.Failed → ⊥ }
{
    let mut host = QuietMemoryHost::new(alloc);
    let mut out = Printer::new(false);
    machine.dump(&mut out, &mut host);
    match sent(host, &out) {
        Some(printed) => Ok(printed),
        None => Err(HostFault::NoMemory),
    }
}
