//! The kernel: a call, what is left of one, a death or a tick begins an event, and `close_event` ends it (book, chapters 4 to 6 and 13).
//!
//! It depends on the kernel's state. What each call of the abstract machine keeps is kept true at each moment.

ghost use Rattle.std.specs.Prelude.{ℕ, ◌≡◌, ◌≢◌, ◌<◌, ◌≤◌, length, map, IfOk, ◌↔◌, IsTrue, [], option_map};
ghost use Rattle.file_server.specs.Requests.{note_of};
ghost use Rattle.given_disks.specs.Disks.{disks_of};
ghost use Rattle.given_disks.specs.HeldFiles.{HoldsFiles};
ghost use Rattle.image_loader.specs.Images.{loaded_of};
ghost use Rattle.io_calls.specs.Consoles.{after_sending};
ghost use Rattle.io_calls.specs.Disks.{after_completing};
ghost use Rattle.io_calls.specs.Files.{CompletesFiles};
ghost use Rattle.kernel.specs.Booted.{Booted};
ghost use Rattle.kernel_state.specs.Beginnings.{BeginsAs, next_of};
ghost use Rattle.kernel_state.specs.Calling.{IsCalling};
ghost use Rattle.kernel_state.specs.Results.{answer_of, answer_so_far, came_to, idle, IsIdle};
ghost use Rattle.local_files.specs.Resting.{ServesDisk};
ghost use Rattle.part_laws.specs.Preserve.{ticking};
ghost use Rattle.xinu_model.specs.Calls.{called, continued};
ghost use Rattle.xinu_model.specs.Console.Signals.{receiving};
ghost use Rattle.xinu_model.specs.Console.Taking.{console_of};
ghost use Rattle.xinu_model.specs.Console.Transmitting.{transmitted};
ghost use Rattle.xinu_model.specs.Events as events;
ghost use Rattle.xinu_model.specs.Files.Syscalls.{files_of};
ghost use Rattle.xinu_model.specs.Isa.Exec.{exec};
ghost use Rattle.xinu_model.specs.Machine as model;
ghost use Rattle.xinu_model.specs.Machine.{Silent};
ghost use Rattle.xinu_model.specs.Ports.Queues.{port_at};
ghost use Rattle.xinu_model.specs.Process.Death.{exit};
ghost use Rattle.xinu_model.specs.RawDisk.Calls.{disk_of};
ghost use Rattle.xinu_model.specs.RawDisk.Completions.{raw_completed};
ghost use Rattle.xinu_model.specs.Sound.State.{IsSound};
ghost use Rattle.xinu_model.specs.Tables.{process_at};

use file_server::FileNotes;
use image_loader::Image;
use kernel_boot::{BootFault, boot};
use kernel_state::{Begun, KernelState};
use lfs_layout::{CleanImage, RawImage};
use rv_hart::Outcome;
use std::alloc::Global;
use std::marker::Model;
use xinu_base::{Call, Family, Next, Pid, Rest, SYSERR, family_of};

/// The kernel. A clause sees the state of the abstract machine inside an event and how the event's call goes, `came`, and the bytes of the
/// disk with files, `image`. A clone is equal, and takes memory.
pub struct Kernel {
    // What calls and events change.
    pub(crate) state: KernelState,
    // How the event's call went.
    pub(crate) answer: Option<Next>,
}

impl Drop for Kernel {
    fn drop(self) {
        let Kernel {
            state: _state,
            answer: _answer,
        } = self;
    }
}

impl Model for Kernel {
    ghost use Rattle.kernel.specs.Values.{KernelValue};

    ghost Value = { KernelValue };

    ghost use Rattle.kernel.specs.Kernels.{kernel_value, IsKernel};

    ghost view = { kernel_value };

    ghost invariant = { IsKernel };
}

impl Kernel {
    /// A kernel that holds the images and is about to run their processes, with the raw disk of one image and the file system of the other.
    /// It is idle, and its disk with files has the bytes of the image. There are at most eight images of programs. The images of disks are
    /// dropped if it is refused.
    ///
    /// # Errors
    ///
    /// `Overlap` if and only if an image overlaps an earlier one; else `NoRoom` if and only if the heap after the images has no room
    /// for a stack; `NoMemory`.
    pub fn new(
        alloc: Global,
        images: &[Image<'_>],
        disk0: RawImage,
        disk1: CleanImage,
    ) -> Result<Self, BootFault>
        requires few { length images.now ≤ 8 }
        ensures booted { Booted (disks_of disk0 disk1) (map loaded_of images.now) result }
        ensures image { IfOk result (λ k. k.image ≡ disk1) }
    {
        let state = boot(alloc, images, disk0, disk1)?;
        Ok(Kernel {
            state,
            answer: None,
        })
    }

    /// The state inside the event: tables, heap, pools, thirty ports and devices, and the replies to released processes so far.
    pub fn state(&self) -> &KernelState
        ensures state { result.now.call ≡ self.now.came.call }
        ensures image { result.now.image ≡ self.now.image }
        ensures many { length result.now.call.state.parts.ports ≡ 30 }
    {
        &self.state
    }

    /// A law: the disk with files holds the files at rest, and if no call on files is under way it is clean for exactly
    /// its files.
    pub fn holds_files(&self)
        ensures holds { HoldsFiles self.now.image (files_of self.now.came.call.state) }
    {
        self.state.holds_files();
    }

    /// How the event's call went so far. `None` if there is no call.
    pub fn answer(&self) -> Option<Next>
        ensures answer { self.now.came.answer ≡ answer_so_far result }
    {
        self.answer
    }

    /// The current process.
    pub fn current(&self) -> Pid
        ensures current { result ≡ self.now.came.call.state.tables.current }
    {
        self.state.tables.current()
    }

    /// Whether nothing is left of the current process's call, so that its next step is an instruction.
    pub fn is_done(&self) -> bool
        ensures done { IsTrue result ↔ ((process_at self.now.came.call.state.tables self.now.came.call.state.tables.current).rest ≡ Rest.Nothing) }
    {
        self.state.tables.is_done()
    }

    /// The call that the current process's registers ask for.
    pub fn call_of(&self) -> Call
        ensures call { result ≡ events.call_of (model.current_hart self.now.came.call.state) }
    {
        self.state.call_of()
    }

    /// Carries out one instruction of the current process, which isn't the null process. The kernel is idle, before and after.
    pub fn instruction(&mut self) -> Outcome
        requires idle { IsIdle self.old.came }
        requires not_null { self.old.came.call.state.tables.current ≢ 0 }
        ensures outcome { result ≡ (exec (model.current_hart self.old.came.call.state) self.old.came.call.state.memory).outcome }
        ensures idle { IsIdle self.new.came }
        ensures sound { IsSound self.new.came.call.state }
        ensures state { self.new.came ≡ idle (events.with_executed (exec (model.current_hart self.old.came.call.state) self.old.came.call.state.memory) self.old.came.call.state) }
        ensures image { self.new.image ≡ self.old.image }
    {
        self.state.instruction()
    }

    /// Begins a call of the current process, and answers how it goes. A number that has no call is refused. A call on files may take effect
    /// as it is made, if no other is under way.
    ///
    /// The kernel is idle, and the current process isn't the null process. The sequence number of a port may rise, so each is below
    /// 4294967295.
    pub fn begin_core(&mut self, call: Call) -> Begun
        requires idle { IsIdle self.old.came }
        requires not_null { self.old.came.call.state.tables.current ≢ 0 }
        requires numbers { (q : ℕ) → (port_at self.old.came.call.state.parts.ports q).seq < 4294967295 }
        ensures called { BeginsAs result (called call.number call.args self.old.came.call.state) self.old.came.call.state self.new.came }
        ensures answer { self.new.came.answer ≡ answer_of (next_of result) }
        ensures image { self.new.image ≡ self.old.image }
    {
        let begun = begin(&mut self.state, call);
        self.answer = Some(begun.next());
        begun
    }

    /// Does what is left of the call in which the current process waited, and answers how the call goes. The kernel is idle, the current
    /// process isn't the null process, and something is left of its call.
    pub fn go_on_core(&mut self) -> Next
        requires idle { IsIdle self.old.came }
        requires not_null { self.old.came.call.state.tables.current ≢ 0 }
        requires waits { (process_at self.old.came.call.state.tables self.old.came.call.state.tables.current).rest ≢ Rest.Nothing }
        ensures continued { self.new.came ≡ continued (process_at self.old.came.call.state.tables self.old.came.call.state.tables.current).rest self.old.came.call.state }
        ensures answer { self.new.came.answer ≡ answer_of result }
        ensures image { self.new.image ≡ self.old.image }
    {
        let next = go_on(&mut self.state);
        self.answer = Some(next);
        next
    }

    /// A tick of the clock, with its own reschedules. The kernel is idle, and fewer than 4294967295 ticks have passed.
    pub fn on_tick(&mut self)
        requires idle { IsIdle self.old.came }
        requires few { self.old.came.call.state.tables.ticks < 4294967295 }
        ensures ticks { self.new.came ≡ ticking self.old.came.call.state }
        ensures image { self.new.image ≡ self.old.image }
    {
        core_calls::tick(&mut self.state);
        self.answer = None;
    }

    /// A character is received from the console. The kernel is idle.
    pub fn on_type(&mut self, b: u8)
        requires idle { IsIdle self.old.came }
        ensures received { self.new.came ≡ receiving b self.old.came.call.state }
        ensures image { self.new.image ≡ self.old.image }
    {
        io_calls::on_type(&mut self.state, b);
        self.answer = None;
    }

    /// The console may send a byte, which is the answer. `None`, and nothing changes, if and only if output is held or there is nothing to
    /// be sent. The kernel is idle.
    pub fn on_tx(&mut self) -> Option<u8>
        requires idle { IsIdle self.old.came }
        ensures byte { result ≡ option_map (λ sent. sent.byte) (transmitted (console_of self.old.came.call.state)) }
        ensures sent { self.new.came ≡ record { call = after_sending (transmitted (console_of self.old.came.call.state)) self.old.came.call.state; answer = Silent } }
        ensures image { self.new.image ≡ self.old.image }
    {
        let byte = io_calls::on_tx(&mut self.state);
        self.answer = None;
        byte
    }

    /// The raw disk completes its first request, well or badly. If the caller lives it becomes ready with its reply, and what was read goes to
    /// RAM. Nothing changes if no request waits. The kernel is idle.
    pub fn on_disk(&mut self, good: bool)
        requires idle { IsIdle self.old.came }
        ensures completes { self.new.came ≡ record { call = after_completing (raw_completed good (disk_of self.old.came.call.state)) self.old.came.call.state; answer = Silent } }
        ensures image { self.new.image ≡ self.old.image }
    {
        io_calls::on_disk(&mut self.state, good);
        self.answer = None;
    }

    /// The disk with files completes well: the first call on files has its reply, or a turn. Once it has its reply the next becomes the first,
    /// and so on as long as one needs no block. Whoever has a reply becomes ready with it, and what was read is in RAM. At most one block of the
    /// disk changes, and none if the first call will be refused or writes no file. Tells what happened, in order; nothing does if no call is
    /// under way, nor does the disk change then. The kernel is idle.
    pub fn on_files(&mut self) -> FileNotes
        requires idle { IsIdle self.old.came }
        ensures completes { CompletesFiles self.old.came.call.state (map note_of result.items) self.new.came }
        ensures image { ServesDisk (files_of self.old.came.call.state) self.old.image self.new.image }
    {
        let notes = io_calls::on_files(&mut self.state);
        self.answer = None;
        notes
    }

    /// The current process, which isn't the null process, dies, by `exit` or by a trap. The kernel is idle.
    pub fn die(&mut self)
        requires idle { IsIdle self.old.came }
        requires not_null { self.old.came.call.state.tables.current ≢ 0 }
        ensures dies { self.new.came ≡ exit self.old.came.call.state }
        ensures image { self.new.image ≡ self.old.image }
    {
        let next = core_calls::exit(&mut self.state);
        self.answer = Some(next);
    }

    /// Ends the event: its one resched, and the replies. Then the kernel is idle.
    pub fn close_event(&mut self)
        ensures idle { IsIdle self.new.came }
        ensures closed { self.new.came ≡ idle (model.end_of_event 0 [] self.old.came).state }
        ensures sound { IsSound self.new.came.call.state }
        ensures image { self.new.image ≡ self.old.image }
    {
        let answer = self.answer;
        self.state.close(answer);
        self.answer = None;
    }
}

// Begins the call of a number; any number that has no call is refused.
fn begin(k: &mut KernelState, call: Call) -> Begun
    requires calling { IsCalling k.old.call }
    requires numbers { (q : ℕ) → (port_at k.old.call.state.parts.ports q).seq < 4294967295 }
    ensures called { BeginsAs result (called call.number call.args k.old.call.state) k.old.call.state (came_to k.new.call (next_of result)) }
    ensures image { k.new.image ≡ k.old.image }
{
    match family_of(call.number) {
        Some(Family::Processes) | Some(Family::Ports) => Begun::ByRow(core_calls::begin(k, call)),
        Some(Family::Devices) => io_calls::begin(k, call),
        None => Begun::ByRow(Next::Returns(SYSERR)),
    }
}

// Does what is left of the current process's call.
fn go_on(k: &mut KernelState) -> Next
    requires calling { IsCalling k.old.call }
    requires waits { (process_at k.old.call.state.tables k.old.call.state.tables.current).rest ≢ Rest.Nothing }
    ensures continued { came_to k.new.call result ≡ continued (process_at k.old.call.state.tables k.old.call.state.tables.current).rest k.old.call.state }
    ensures image { k.new.image ≡ k.old.image }
{
    if k.is_on_device() {
        io_calls::go_on(k)
    } else {
        core_calls::go_on(k)
    }
}
