//! Boot: the images are in RAM, their first processes are made in order, and become ready with one resched (book, chapter 22).

ghost use Rattle.std.specs.Prelude.{◌≡◌, ◌≤◌, ◌<◌, IfOk, IfErr, None, [], length, map, replicate};
ghost use Rattle.image_loader.specs.Images.{loaded_of};
ghost use Rattle.reference_boot.specs.Starts.{RefusesAs};
ghost use Rattle.reference_boot.specs.declared.boot.NoStart.TheVariants as no;
ghost use Rattle.reference_state.specs.Answers.{IsStart};
ghost use Rattle.xinu_model.specs.Boot as model;
ghost use Rattle.xinu_model.specs.Heap.Cells.{take_stack};
ghost use Rattle.xinu_model.specs.Process.Creation as creation;
ghost use Rattle.xinu_model.specs.Process.Scheduling.{resched};
ghost use Rattle.xinu_model.specs.Machine.{start, with_tables};

use crate::machine::{loaded_machine, on_disks};
use image_loader::{Image, first_overlap};
use reference_calls::creation::{Entry, make_process, new_hart, new_process, stack_size};
use reference_calls::memory_calls::stack_taken;
use reference_state::{FileSystem, Machine, RawDisk};
use reference_tables::Tables;
use std::alloc::Global;
use xinu_base::{MINSTK, NoMemory, Pid};

/// Why the machine doesn't start.
#[derive(Clone, Copy)]
pub enum NoStart {
    /// The image of this number, counted from 1, overlaps an earlier one.
    Overlaps(u8),
    /// The heap has no stack for the image of this number.
    NoRoom(u8),
    /// Out of memory.
    NoMemory,
}

/// The start of the machine with some images, which are numbered from 1 on, on disks that it is given. There are at most eight images.
/// Nothing was asked of the disks yet: the raw disk has no request, and no device has a file open.
pub fn boot_on(
    alloc: Global,
    images: &[Image<'_>],
    disk: RawDisk,
    system: FileSystem,
) -> Result<Machine, NoStart>
    requires few { length images.now ≤ 8 }
    requires idle { disk.requests ≡ [] }
    requires closed { system.devices ≡ replicate 6 None }
    ensures boots { IfOk result (λ m. model.boot_on (record { blocks = disk.blocks; size = system.blocks; files = system.files })
        (map loaded_of images.now) ≡ model.Boots m.state) }
    ensures start { IfOk result (λ m. IsStart m) }
    ensures refuses { IfErr result (λ e. RefusesAs (model.boot_on
        (record { blocks = disk.blocks; size = system.blocks; files = system.files }) (map loaded_of images.now)) e) }
{
    let mut m = boot(alloc, images)?;
    on_disks(&mut m, disk, system);
    Ok(m)
}

// The same on the disks that it has if it is given none.
fn boot(alloc: Global, images: &[Image<'_>]) -> Result<Machine, NoStart>
    requires few { length images.now ≤ 8 }
    ensures boots { IfOk result (λ m. model.boot (map loaded_of images.now) ≡ model.Boots m.state) }
    ensures start { IfOk result (λ m. IsStart m) }
    ensures refuses { IfErr result (λ e. RefusesAs (model.boot (map loaded_of images.now)) e) }
{
    if let Some(i) = first_overlap(images) {
        return Err(NoStart::Overlaps(i));
    }
    let mut m = loaded(alloc, images)?;
    started(&mut m, images)?;
    Ok(m)
}

// The machine with the images in RAM.
fn loaded(alloc: Global, images: &[Image<'_>]) -> Result<Machine, NoStart>
    ensures loaded { IfOk result (λ m. m ≡ start (model.loaded_machine (map loaded_of images.now))) }
    ensures refuses { IfErr result (λ e. e ≡ no.NoMemory) }
{
    match loaded_machine(alloc, images) {
        Ok(m) => Ok(m),
        Err(NoMemory) => Err(NoStart::NoMemory),
    }
}

// The first processes of the images are made in order, and become ready with one resched.
fn started(m: &mut Machine, images: &[Image<'_>]) -> Result<(), NoStart>
    requires start { IsStart m.old }
    requires few { length images.now ≤ 8 }
    ensures started { IfOk result (λ _. model.and_then (model.all_made 1 (map loaded_of images.now) m.old.state)
        (λ s. model.Boots (model.all_started (map loaded_of images.now) s)) ≡ model.Boots m.new.state) }
    ensures start { IfOk result (λ _. IsStart m.new) }
    ensures refuses { IfErr result (λ e. RefusesAs (model.and_then (model.all_made 1 (map loaded_of images.now) m.old.state)
        (λ s. model.Boots (model.all_started (map loaded_of images.now) s))) e) }
{
    all_made(m, images)?;
    match all_started(m, images) {
        Ok(()) => Ok(()),
        Err(NoMemory) => Err(NoStart::NoMemory),
    }
}

// The first processes of the images are made in order.
fn all_made(m: &mut Machine, images: &[Image<'_>]) -> Result<(), NoStart>
    requires start { IsStart m.old }
    requires few { length images.now ≤ 8 }
    ensures made { IfOk result (λ _. model.all_made 1 (map loaded_of images.now) m.old.state ≡ model.Boots m.new.state) }
    ensures start { IfOk result (λ _. IsStart m.new) }
    ensures refuses { IfErr result (λ e. RefusesAs (model.all_made 1 (map loaded_of images.now) m.old.state) e) }
{
    for (i, image) in images.iter().enumerate() {
        with_image(m, i as u8 + 1, image)?;
    }
    Ok(())
}

// The first process of an image is made, if the heap has a stack for it.
fn with_image(m: &mut Machine, number: u8, image: &Image<'_>) -> Result<(), NoStart>
    requires start { IsStart m.old }
    requires below { number < 9 }
    ensures made { IfOk result (λ _. model.where_stack (take_stack (creation.stack_size image.now.stack) m.old.state.parts.heap) number
        (loaded_of image.now) m.old.state ≡ model.Boots m.new.state) }
    ensures start { IfOk result (λ _. IsStart m.new) }
    ensures refuses { IfErr result (λ e. RefusesAs (model.where_stack
        (take_stack (creation.stack_size image.now.stack) m.old.state.parts.heap) number (loaded_of image.now) m.old.state) e) }
{
    let p = Pid::at(usize::from(number));
    let Some(top) = stack_taken(m, image.stack.max(MINSTK)) else {
        return Err(NoStart::NoRoom(number));
    };
    let size = stack_size(image.stack);
    let x = new_process(
        image_name(number),
        image.priority,
        Pid::default(),
        top,
        size,
    );
    let hart = new_hart(first_entry(image.entry), top);
    let Ok(()) = make_process(m, p, x, hart) else {
        return Err(NoStart::NoMemory);
    };
    Ok(())
}

// The processes of the images become ready in order, with one resched.
fn all_started(m: &mut Machine, images: &[Image<'_>]) -> Result<(), NoMemory>
    requires few { length images.now ≤ 8 }
    ensures started { IfOk result (λ _. m.new ≡ record m.old { state = model.all_started (map loaded_of images.now) m.old.state }) }
{
    make_ready(m, images)?;
    reschedule(m)?;
    Ok(())
}

// The processes of the images become ready in order.
fn make_ready(m: &mut Machine, images: &[Image<'_>]) -> Result<(), NoMemory>
    requires few { length images.now ≤ 8 }
    ensures ready { IfOk result (λ _. m.new ≡
        with_tables (model.all_ready 1 (map loaded_of images.now) m.old.state.tables) m.old) }
{
    all_ready(&mut m.tables, images)
}

// The one resched of the start.
fn reschedule(m: &mut Machine) -> Result<(), NoMemory>
    ensures resched { IfOk result (λ _. m.new ≡ with_tables (resched m.old.state.tables) m.old) }
{
    m.tables.resched()
}

// The same of the tables.
fn all_ready(t: &mut Tables, images: &[Image<'_>]) -> Result<(), NoMemory>
    requires few { length images.now ≤ 8 }
    ensures ready { IfOk result (λ _. t.new ≡ model.all_ready 1 (map loaded_of images.now) t.old) }
{
    for (i, _image) in images.iter().enumerate() {
        t.make_ready(Pid::at(i + 1))?;
    }
    Ok(())
}

// How the first process of an image begins.
fn first_entry(pc: u32) -> Entry
    ensures entry { result ≡ record { pc = pc; x = 0; y = 0 } }
{
    Entry { pc, x: 0, y: 0 }
}

// The name of the first process of the image of a number.
fn image_name(number: u8) -> [u8; 15]
    requires below { number < 9 }
    ensures name { result ≡ model.image_name number }
{
    let mut name = *b"image0\0\0\0\0\0\0\0\0\0";
    name[5] += number;
    name
}
