//! The state of the kernel inside an event: tables, registers, RAM, heap, pools, ports and devices, the replies so far, and whether a
//! resched is owed.
//!
//! It depends on the kernel's tables, the processor core, the heap, the buffer pools, the ports and the drivers of the devices. No fact is
//! kept of it: the kernel keeps what holds of all of it.

ghost use Rattle.std.specs.Prelude.{◌≡◌, ◌≤◌, [], length};
ghost use Rattle.given_disks.specs.HeldFiles.{HoldsFiles};
ghost use Rattle.kernel_state.specs.Families.{is_on_device};
ghost use Rattle.kernel_state.specs.Results.{answer_so_far};
ghost use Rattle.xinu_model.specs.Events.{call_of, with_executed};
ghost use Rattle.xinu_model.specs.Files.Syscalls.{files_of};
ghost use Rattle.xinu_model.specs.Isa.Exec.{exec};
ghost use Rattle.xinu_model.specs.Machine.{current_hart, end_of_event, start};
ghost use Rattle.xinu_model.specs.Tables.{process_at};
ghost use Rattle.xinu_model.specs.Words.{half, signed};

use crate::replies::{Replies, is_resched_due, write_all};
use buffer_pools::Pools;
use disk_driver::Disk;
use file_server::FileServer;
use freelist_memory::Heap;
use kernel_tables::KernelTables;
use name_space::Names;
use ports::Ports;
use rv_hart::{Hart, Outcome, Ram, step};
use std::marker::Model;
use tty_driver::Tty;
use xinu_base::{Call, Next, Pid, Rest};

/// The state. A clause sees the abstract machine's inside an event, `call`, and the bytes of the disk with files, `image`. A clone is
/// equal, and takes memory.
pub struct KernelState {
    /// Processes, semaphores, messages, sleepers and the ticks.
    pub tables: KernelTables,
    /// The registers of each process, by its number.
    pub harts: [Hart; 64],
    /// The memory.
    pub ram: Ram,
    /// Which cells of RAM are free.
    pub heap: Heap,
    /// The buffer pools.
    pub pools: Pools,
    /// The ports, with the messages that wait in them.
    pub ports: Ports,
    /// The console.
    pub tty: Tty,
    /// The raw disk.
    pub disk: Disk,
    /// The mounted prefixes.
    pub names: Names,
    /// The disk with files, and the calls on them.
    pub files: FileServer,
    /// The replies to processes that were released in this event.
    pub replies: Replies,
    /// Whether a resched is owed at the end of the event.
    pub owes_resched: bool,
}

impl Drop for KernelState {
    fn drop(self) {
        let KernelState {
            tables: _tables,
            harts: _harts,
            ram: _ram,
            heap: _heap,
            pools: _pools,
            ports: _ports,
            tty: _tty,
            disk: _disk,
            names: _names,
            files: _files,
            replies: _replies,
            owes_resched: _owes_resched,
        } = self;
    }
}

impl Model for KernelState {
    ghost use Rattle.kernel_state.specs.Values.{KernelValue};

    ghost Value = { KernelValue };

    ghost use Rattle.kernel_state.specs.States.{kernel_value};

    ghost view = { kernel_value };
}

impl KernelState {
    /// Whether what is left of the current process's call is of one on a device.
    pub fn is_on_device(&self) -> bool
        ensures on { result ≡ is_on_device (process_at self.now.call.state.tables self.now.call.state.tables.current).rest }
    {
        matches!(
            self.tables.rest(),
            Rest::TtyGet
                | Rest::TtyRead(_)
                | Rest::TtyPut(_, _)
                | Rest::TtyWrite(_, _)
                | Rest::Disk(_)
        )
    }

    /// The call that the current process's registers ask for.
    pub fn call_of(&self) -> Call
        ensures call { result ≡ call_of (current_hart self.now.call.state) }
    {
        let hart = &self.harts[self.tables.current().index()];
        let regs = &hart.regs;
        Call {
            number: regs[17],
            args: [regs[10], regs[11], regs[12], regs[13], regs[14], regs[15]],
        }
    }

    /// Carries out one instruction of the current process.
    pub fn instruction(&mut self) -> Outcome
        ensures outcome { result ≡ (exec (current_hart self.old.call.state) self.old.call.state.memory).outcome }
        ensures state { self.new.call ≡ record self.old.call { state = with_executed (exec (current_hart self.old.call.state) self.old.call.state.memory) self.old.call.state } }
        ensures image { self.new.image ≡ self.old.image }
    {
        let current = self.tables.current();
        step(&mut self.harts[current.index()], &mut self.ram)
    }

    /// The replies of this event to released processes, in order.
    pub fn released(&self) -> &[(Pid, i32)]
        ensures released { result.now ≡ self.now.call.released }
        ensures few { length result.now ≤ 64 }
    {
        self.replies.as_slice()
    }

    /// A law: the disk with files holds the files at rest, and if no call on files is under way it is clean for exactly
    /// its files.
    pub fn holds_files(&self)
        ensures holds { HoldsFiles self.now.image (files_of self.now.call.state) }
    {
        self.files.holds();
    }

    /// A law: RAM has its 1,048,576 bytes at each moment of an event.
    pub fn ram_is_whole(&self)
        ensures whole { length self.now.call.state.memory ≡ 1048576 }
    {
        let _bytes = self.ram.bytes_from(0);
    }

    /// Ends the event of a call that went so. The replies to released processes are written into their registers, then the caller's into
    /// its own, if the call answers it. Then comes the one resched of the event, if it is owed or the caller waits or is gone.
    pub fn close(&mut self, answer: Option<Next>)
        ensures closed { self.new.call ≡ start (end_of_event 0 [] (record { call = self.old.call; answer = answer_so_far answer })).state }
        ensures image { self.new.image ≡ self.old.image }
    {
        let caller = self.tables.current();
        write_all(&mut self.harts, self.replies.as_slice(), answer, caller);
        if is_resched_due(self.owes_resched, answer) {
            self.tables.resched();
        }
        self.replies.clear();
        self.owes_resched = false;
    }
}

/// The low 16 bits of a word, with their sign.
pub fn half(word: u32) -> i16
    ensures half { result ≡ half word }
{
    ((word % 65536) as u16).cast_signed()
}

/// A word as a signed number.
pub fn signed(word: u32) -> i32
    ensures signed { result ≡ signed word }
{
    word.cast_signed()
}
