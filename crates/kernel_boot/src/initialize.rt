//! Boot: RAM holds the images, the heap gives their stacks, and their processes are ready (book, chapter 22, `initialize.c`).
//!
//! It depends on the kernel's state and the places of images in RAM.

ghost use Rattle.std.specs.Prelude.{◌≡◌, ◌≤◌, ◌<◌, ◌+◌, ◌-◌, ◌/◌, ◌%◌, ℕ, [], true, length, map, replicate, IfOk, IfSome, IfNone, if◌then◌else◌};
ghost use Rattle.given_disks.specs.Disks.{disks_of};
ghost use Rattle.image_loader.specs.Images.{loaded_of};
ghost use Rattle.kernel_boot.specs.Boots.{BootsAs};
ghost use Rattle.kernel_state.specs.Results.{IsStart};
ghost use Rattle.ports.specs.Table.{first_table};
ghost use Rattle.xinu_model.specs.Boot as boot;
ghost use Rattle.xinu_model.specs.Boot.{null_tables};
ghost use Rattle.xinu_model.specs.Console.State.{first_console};
ghost use Rattle.xinu_model.specs.Heap.Cells as cells;
ghost use Rattle.xinu_model.specs.Machine.{start};
ghost use Rattle.xinu_model.specs.Process.Creation.{stack_size};
ghost use Rattle.xinu_model.specs.Sound.State.{IsSound};
ghost use Rattle.xinu_model.specs.Tables.{state_at};

use buffer_pools::Pools;
use disk_driver::Disk;
use file_server::FileServer;
use freelist_memory::Heap;
use image_loader::{Image, end_of_all, first_overlap, load_all};
use kernel_state::{Creation, KernelState, Replies, make_on_stack};
use kernel_tables::KernelTables;
use lfs_layout::{CleanImage, RawImage};
use name_space::Names;
use ports::Ports;
use rv_hart::{Hart, RAM_SIZE, Ram};
use std::alloc::Global;
use tty_driver::Tty;
use xinu_base::{NoMemory, Pid, State};

/// Why a kernel wasn't booted.
#[derive(Clone, Copy, PartialEq, Eq)]
pub enum BootFault {
    /// The image with this number, counted from 1, overlaps an earlier one.
    Overlap(u8),
    /// The heap has no room for the stack of the image with this number.
    NoRoom(u8),
    /// There was no memory for RAM, tables, heap, pools, console or files.
    NoMemory,
}

/// The state in which the images are in RAM and are about to run, with the raw disk of one image and the file system of the other. It is
/// sound, nothing was done yet in it, and its disk with files has the bytes of the image. There are at most eight images of programs. The
/// images of disks are dropped if it is refused.
///
/// # Errors
///
/// `Overlap` if and only if an image overlaps an earlier one; else `NoRoom` if and only if the heap after the images has no room
/// for a stack; `NoMemory`.
pub fn boot(
    alloc: Global,
    images: &[Image<'_>],
    disk0: RawImage,
    disk1: CleanImage,
) -> Result<KernelState, BootFault>
    requires few { length images.now ≤ 8 }
    ensures booted { BootsAs (disks_of disk0 disk1) (map loaded_of images.now) result }
    ensures sound { IfOk result (λ k. IsSound k.call.state) }
    ensures image { IfOk result (λ k. k.image ≡ disk1) }
{
    if let Some(number) = first_overlap(images) {
        return Err(BootFault::Overlap(number));
    }
    let Ok(mut state) = loaded(alloc, images, disk0, disk1) else {
        return Err(BootFault::NoMemory);
    };
    if let Some(number) = make_all(&mut state, images) {
        return Err(BootFault::NoRoom(number));
    }
    start_all(&mut state, images);
    Ok(state)
}

// The state in which the images are in RAM, and no process but the null process was made.
fn loaded(
    alloc: Global,
    images: &[Image<'_>],
    disk0: RawImage,
    disk1: CleanImage,
) -> Result<KernelState, NoMemory>
    ensures loaded { IfOk result (λ k. k.call ≡ start (boot.on_disks (disks_of disk0 disk1) (boot.loaded_machine (map loaded_of images.now)))) }
    ensures image { IfOk result (λ k. k.image ≡ disk1) }
{
    let mut ram = Ram::new(alloc)?;
    load_all(&mut ram, images);
    let files = FileServer::new(alloc, disk1)?;
    let low = 8 * end_of_all(images).div_ceil(8);
    let Parts {
        tables,
        heap,
        pools,
        ports,
        tty,
    } = first_parts(alloc, low)?;
    Ok(KernelState {
        tables,
        harts: [Hart::ZERO; 64],
        ram,
        heap,
        pools,
        ports,
        tty,
        disk: Disk::new(disk0),
        names: Names::new(),
        files,
        replies: Replies::new(),
        owes_resched: false,
    })
}

// Parts of the state.
#[derive(Drop)]
struct Parts {
    tables: KernelTables,
    heap: Heap,
    pools: Pools,
    ports: Ports,
    tty: Tty,
}

// The parts as they are before any process is made, with the heap from this address on.
fn first_parts(alloc: Global, low: u32) -> Result<Parts, NoMemory>
    requires aligned { low % 8 ≡ 0 }
    requires in_ram { low ≤ 1048576 }
    ensures tables { IfOk result (λ p. p.tables ≡ null_tables) }
    ensures heap { IfOk result (λ p. p.heap ≡ record { low = low; cells = replicate ((1048576 - low) / 8) true }) }
    ensures pools { IfOk result (λ p. p.pools ≡ []) }
    ensures ports { IfOk result (λ p. p.ports ≡ first_table) }
    ensures tty { IfOk result (λ p. p.tty ≡ first_console) }
{
    let tables = KernelTables::new(alloc)?;
    let heap = Heap::new(alloc, low, RAM_SIZE)?;
    let pools = Pools::new(alloc)?;
    let ports = Ports::new(alloc)?;
    let tty = Tty::new(alloc)?;
    Ok(Parts {
        tables,
        heap,
        pools,
        ports,
        tty,
    })
}

// Makes the first processes of the images, in order. The number of the first image for whose stack the heap has no room.
fn make_all(k: &mut KernelState, images: &[Image<'_>]) -> Option<u8>
    requires start { IsStart k.old.call }
    requires few { length images.now ≤ 8 }
    requires none { (j : ℕ) → 1 ≤ j → state_at k.old.call.state.tables j ≡ State.Free }
    ensures made { IfNone result (boot.all_made 1 (map loaded_of images.now) k.old.call.state ≡ boot.Boots k.new.call.state) }
    ensures no_room { IfSome result (λ i. boot.all_made 1 (map loaded_of images.now) k.old.call.state ≡ boot.NoRoom i) }
    ensures start { IfNone result (IsStart k.new.call) }
    ensures image { k.new.image ≡ k.old.image }
{
    let mut number = 1;
    for image in images {
        if !make_image(k, number, image) {
            return Some(number);
        }
        number += 1;
    }
    None
}

// Makes the first process of an image. False if the heap has no room for its stack.
fn make_image(k: &mut KernelState, number: u8, image: &Image<'_>) -> bool
    requires start { IsStart k.old.call }
    requires below { number < 9 }
    requires free { state_at k.old.call.state.tables number ≡ State.Free }
    ensures made { boot.where_stack (cells.take_stack (stack_size (loaded_of image.now).stack) k.old.call.state.parts.heap) number (loaded_of image.now) k.old.call.state ≡ (if result then boot.Boots k.new.call.state else boot.NoRoom number) }
    ensures start { IsStart k.new.call }
    ensures image { k.new.image ≡ k.old.image }
{
    let mut name = *b"image0\0\0\0\0\0\0\0\0\0";
    name[5] += number;
    let p = Pid::at(usize::from(number));
    let new = Creation {
        entry: image.entry,
        stack: image.stack,
        priority: image.priority,
        args: (0, 0),
    };
    make_on_stack(
        &mut k.tables,
        &mut k.harts,
        &mut k.heap,
        p,
        Pid::default(),
        &name,
        new,
    )
    .is_some()
}

// The processes of the images become ready in order, with one resched.
fn start_all(k: &mut KernelState, images: &[Image<'_>])
    requires start { IsStart k.old.call }
    requires few { length images.now ≤ 8 }
    requires suspended { (j : ℕ) → 0 < j → j < 1 + length images.now → state_at k.old.call.state.tables j ≡ State.Suspended }
    ensures started { k.new.call ≡ start (boot.all_started (map loaded_of images.now) k.old.call.state) }
    ensures image { k.new.image ≡ k.old.image }
{
    ready_all(&mut k.tables, images);
    k.tables.resched();
}

// The processes of the images become ready in order.
fn ready_all(tables: &mut KernelTables, images: &[Image<'_>])
    requires few { length images.now ≤ 8 }
    requires suspended { (j : ℕ) → 0 < j → j < 1 + length images.now → state_at tables.old j ≡ State.Suspended }
    ensures ready { tables.new ≡ boot.all_ready 1 (map loaded_of images.now) tables.old }
{
    let mut number = 1;
    for _image in images {
        tables.ready(Pid::at(number));
        number += 1;
    }
}
