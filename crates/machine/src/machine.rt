//! The machine: its kernel, and how many events it took.

ghost use Rattle.std.specs.Prelude.{ℕ, ◌≡◌, ◌+◌, ◌∷◌, [], ◌<◌, ◌≤◌, false, is_some};
ghost use Rattle.given_disks.specs.HeldFiles.{HoldsFiles};
ghost use Rattle.host_port.specs.Printing.{Prints};
ghost use Rattle.machine.specs.Apart.{KeepsApart};
ghost use Rattle.machine.specs.DiskBytes.{bytes_of, disk_bytes};
ghost use Rattle.machine.specs.Disks.{ChangesDisk};
ghost use Rattle.machine.specs.RunEnds.{end_of_go};
ghost use Rattle.machine.specs.Printed.{EventPrints};
ghost use Rattle.process_core.specs.Tables.{numbers, sleepers_of};
ghost use Rattle.queue_table.specs.Entries.{Linked};
ghost use Rattle.queue_table.specs.Lists.{list_at};
ghost use Rattle.queue_table.specs.Table as table;
ghost use Rattle.xinu_base.specs.declared.lines.TranscriptLine.TheVariants as line;
ghost use Rattle.xinu_model.specs.Files.Syscalls.{files_of};
ghost use Rattle.xinu_model.specs.Events.{panics_in};
ghost use Rattle.xinu_model.specs.Runs as runs;
ghost use Rattle.xinu_model.specs.Runs.{end_with};
ghost use Rattle.xinu_model.specs.Sound.State.{IsSound};
ghost use Rattle.xinu_model.specs.Tables.{semaphore_at};
ghost use Rattle.xinu_model.specs.Text.{shown, tables_of};

use crate::events::happen;
use crate::printing::print_line;
use crate::tables::print_tables;
use host_port::{Host, Printer};
use kernel::Kernel;
use kernel_state::KernelState;
use queue_table::Lists;
use std::marker::Model;
use xinu_base::{Event, Pid, TranscriptLine};

/// What an event means for the run.
#[derive(Clone, Copy, PartialEq, Eq)]
pub enum Go {
    /// The run goes on.
    Goes,
    /// In this event the last process beside the null process died.
    Done,
    /// The kernel panicked in this event.
    Panic,
}

/// A machine that was booted. A clause sees its state, the bytes of the disk with files, how many events it took, and whether
/// one of them ended the run. A clone is equal.
pub struct Machine {
    pub(crate) kernel: Kernel,
    pub(crate) events: u64,
    pub(crate) has_ended: bool,
}

impl Drop for Machine {
    fn drop(self) {
        let Machine {
            kernel: _kernel,
            events: _events,
            has_ended: _has_ended,
        } = self;
    }
}

impl Model for Machine {
    ghost use Rattle.machine.specs.Printed.{Booted};

    ghost Value = { Booted };

    ghost use Rattle.machine.specs.Machines.{booted_of, IsMachine};

    ghost view = { booted_of };

    ghost invariant = { IsMachine };
}

impl Machine {
    /// Prints the line `run` of the process that runs first.
    pub fn start<H: Host>(&self, out: &mut Printer, host: &mut H)
        ensures { Prints out.old out.new (H.view host.old) (H.view host.new) (shown out.old.plain (line.Switch self.now.state.tables.current ∷ [])) }
    {
        print_line(&TranscriptLine::Switch(self.kernel.current()), out, host);
    }

    /// Takes one event and prints its lines. No event ended the run before, and fewer than 10^9 were taken.
    ///
    /// The machine goes to a state that the abstract machine allows (`Happens`). `Panic` comes if and only if the kernel panicked in this
    /// event, else `Done` if and only if the last process beside the null process died in it. The lines say which calls on files took
    /// effect.
    ///
    /// No address comes to have two owners in it, unless a process gives back what a pool or a stack has, and pools and stacks get only
    /// what was free. What always holds between two events holds after it, of the console as of the other parts: the disk with files holds
    /// the files of the state at rest, and is clean for exactly them if no call on files is under way. Only a good completion of that disk
    /// changes it, and at most one block of it; and it changes nothing if no call on files is under way, or the first will be refused or
    /// writes no file.
    pub fn event<H: Host>(&mut self, event: Event, out: &mut Printer, host: &mut H) -> Go
        requires goes_on { self.old.over ≡ false }
        requires few { self.old.events < 1000000000 }
        ensures happens { EventPrints self.old.state event self.new.state out.old out.new (H.view host.old) (H.view host.new) }
        ensures lived { runs.is_over self.old.state ≡ false }
        ensures goes { end_of_go result ≡ end_with (panics_in self.old.state event) (runs.is_over self.new.state) }
        ensures apart { KeepsApart self.old.state event self.new.state }
        ensures sound { IsSound self.new.state }
        ensures holds { HoldsFiles self.new.image self.new.state.parts.devices.files }
        ensures one_block { ChangesDisk event (files_of self.old.state) self.old.image self.new.image }
        ensures counted { self.new.events ≡ self.old.events + 1 }
        ensures over { self.new.over ≡ is_some (end_of_go result) }
    {
        self.events += 1;
        let panics = happen(&mut self.kernel, event, out, host);
        self.kernel.holds_files();
        let go = go_on(panics, self.kernel.state());
        if go != Go::Goes {
            self.has_ended = true;
        }
        go
    }

    /// The state: registers, RAM and tables, each part to be read by its own calls. It is sound, and at most 10^9 ticks came.
    pub fn state(&self) -> &KernelState
        ensures state { result.now.call.state ≡ self.now.state }
        ensures image { result.now.image ≡ self.now.image }
        ensures sound { IsSound self.now.state }
        ensures few { self.now.state.tables.ticks ≤ 1000000000 }
    {
        self.kernel.state()
    }

    /// Prints the tables of the state.
    pub fn dump<H: Host>(&self, out: &mut Printer, host: &mut H)
        ensures { Prints out.old out.new (H.view host.old) (H.view host.new) (shown out.old.plain (tables_of self.now.state)) }
    {
        print_tables(self.kernel.state(), out, host);
    }

    /// The one table of linked entries that holds all lists of processes: queue 128 is the ready list, queue 129 the sleepers, and the
    /// queue of a semaphore's number its waiters.
    pub fn lists(&self) -> &Lists
        ensures linked { Linked 64 130 result.now.entries.items (table.lists result.now) }
        ensures ready { self.now.state.tables.ready ≡ list_at (table.lists result.now) 128 }
        ensures sleepers { self.now.state.tables.sleepers ≡ sleepers_of self.now.state.tables.ticks (list_at (table.lists result.now) 129) }
        ensures waiters { (sem : ℕ) → sem < 128 → (semaphore_at self.now.state.tables sem).waiters ≡ numbers (list_at (table.lists result.now) sem) }
    {
        lists_of(self.kernel.state())
    }

    /// The bytes of a disk: of the raw disk for 0, of the disk with files for 1. That holds the files of the state at rest, and is clean
    /// for exactly them if no call on files is under way.
    pub fn disk(&self, n: u8) -> &[u8]
        requires which { n < 2 }
        ensures bytes { result.now ≡ bytes_of n self.now }
        ensures holds { HoldsFiles self.now.image self.now.state.parts.devices.files }
    {
        disk_of(self.kernel.state(), n)
    }
}

// The table that holds all lists of processes.
fn lists_of(k: &KernelState) -> &Lists
    ensures linked { Linked 64 130 result.now.entries.items (table.lists result.now) }
    ensures ready { k.now.call.state.tables.ready ≡ list_at (table.lists result.now) 128 }
    ensures sleepers { k.now.call.state.tables.sleepers ≡ sleepers_of k.now.call.state.tables.ticks (list_at (table.lists result.now) 129) }
    ensures waiters { (sem : ℕ) → sem < 128 → (semaphore_at k.now.call.state.tables sem).waiters ≡ numbers (list_at (table.lists result.now) sem) }
{
    k.tables.lists()
}

// The bytes of a disk.
fn disk_of(k: &KernelState, n: u8) -> &[u8]
    requires which { n < 2 }
    ensures bytes { result.now ≡ disk_bytes n k.now.call.state k.now.image }
{
    if n == 0 {
        k.disk.bytes()
    } else {
        k.files.bytes()
    }
}

// Whether the null process alone is left. Nothing is counted while another process runs.
fn is_over(k: &KernelState) -> bool
    requires sound { IsSound k.now.call.state }
    ensures over { result ≡ runs.is_over k.now.call.state }
{
    if k.tables.current() != Pid::default() {
        return false;
    }
    k.tables.is_over()
}

// What an event means for the run, by whether the kernel panicked in it and whether the null process alone is left.
fn go_on(panics: bool, k: &KernelState) -> Go
    requires sound { IsSound k.now.call.state }
    ensures goes { end_of_go result ≡ end_with panics (runs.is_over k.now.call.state) }
{
    if panics {
        Go::Panic
    } else if is_over(k) {
        Go::Done
    } else {
        Go::Goes
    }
}
