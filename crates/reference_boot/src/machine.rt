//! The machine with the images in RAM, before their processes are made, and the disks that it is given (book, chapter 22).

ghost use Rattle.std.specs.Prelude.{◌≡◌, ◌++◌, IfOk, None, [], map, replicate};
ghost use Rattle.image_loader.specs.Images.{loaded_of};
ghost use Rattle.xinu_model.specs.Boot as model;
ghost use Rattle.xinu_model.specs.Devices.State.{empty_blocks};
ghost use Rattle.xinu_model.specs.Files.Systems.{closed_system};
ghost use Rattle.xinu_model.specs.Machine.{start};
ghost use Rattle.xinu_model.specs.Memory.{zeros};

use crate::first::{first_console, first_ports, heap_behind, null_tables};
use image_loader::{Image, end_of_all, load_all};
use reference_state::{Bytes, FileSystem, FileWork, Machine, OpenFile, RawDisk};
use reference_tables::push;
use rv_hart::{Hart, Ram};
use std::alloc::Global;
use xinu_base::NoMemory;

// How many blocks the raw disk has, and how many file devices there are.
const BLOCKS: usize = 64;

const DEVICES: usize = 6;

/// The machine with the images in RAM, on the disks that it has if it is given none.
pub(crate) fn loaded_machine(alloc: Global, images: &[Image<'_>]) -> Result<Machine, NoMemory>
    ensures loaded { IfOk result (λ m. m ≡ start (model.loaded_machine (map loaded_of images.now))) }
{
    let memory = loaded_memory(alloc, images)?;
    let heap = heap_behind(alloc, end_of_all(images))?;
    let tables = null_tables(alloc)?;
    let ports = first_ports(alloc)?;
    let disk = empty_disk(alloc)?;
    let files = no_work(alloc, empty_system(alloc)?);
    Ok(Machine {
        tables,
        harts: [Hart::ZERO; 64],
        memory,
        heap,
        pools: Vec::new(alloc),
        ports,
        next_port: 0,
        console: first_console(alloc),
        names: Vec::new(alloc),
        disk,
        files,
        released: Vec::new(alloc),
        owes_resched: false,
    })
}

// RAM with the images in it.
fn loaded_memory(alloc: Global, images: &[Image<'_>]) -> Result<Ram, NoMemory>
    ensures memory { IfOk result (λ ram. ram ≡ model.with_images (map loaded_of images.now) zeros) }
{
    let mut memory = Ram::new(alloc)?;
    load_all(&mut memory, images);
    Ok(memory)
}

// A raw disk with 64 blocks on which nothing was written.
#[tactic(auto, unfolding(xinu_model::specs::Devices::State::empty_blocks))]
fn empty_disk(alloc: Global) -> Result<RawDisk, NoMemory>
    ensures disk { IfOk result (λ d. d ≡ record { blocks = empty_blocks; requests = [] }) }
{
    let mut blocks = Vec::new(alloc);
    push_empty(&mut blocks, alloc, BLOCKS)?;
    Ok(RawDisk {
        blocks,
        requests: Vec::new(alloc),
    })
}

// n blocks more, on which nothing was written.
fn push_empty(blocks: &mut Vec<Bytes>, alloc: Global, n: usize) -> Result<(), NoMemory>
    ensures pushed { IfOk result (λ _. blocks.new.items ≡ blocks.old.items ++ replicate n (replicate 512 0)) }
{
    for _i in 0..n {
        push(blocks, empty_block(alloc)?)?;
    }
    Ok(())
}

// A block on which nothing was written.
fn empty_block(alloc: Global) -> Result<Bytes, NoMemory>
    ensures block { IfOk result (λ b. b ≡ replicate 512 0) }
{
    match vec![in alloc; 0u8; 512] {
        Ok(bytes) => Ok(Bytes { bytes }),
        Err(_) => Err(NoMemory),
    }
}

// The file system of a disk of 256 blocks without files.
fn empty_system(alloc: Global) -> Result<FileSystem, NoMemory>
    ensures system { IfOk result (λ s. s ≡ closed_system 256 []) }
{
    let mut devices = Vec::new(alloc);
    push_closed(&mut devices, DEVICES)?;
    Ok(FileSystem {
        blocks: 256,
        files: Vec::new(alloc),
        devices,
    })
}

// n file devices more, which have nothing open.
fn push_closed(devices: &mut Vec<Option<OpenFile>>, n: usize) -> Result<(), NoMemory>
    ensures pushed { IfOk result (λ _. devices.new.items ≡ devices.old.items ++ replicate n None) }
{
    for _i in 0..n {
        push(devices, None)?;
    }
    Ok(())
}

/// A file system on whose files no call is under way.
pub(crate) fn no_work(alloc: Global, system: FileSystem) -> FileWork
    ensures work { result ≡ record { system = system; calls = []; turns = 0; bytes = [] } }
{
    FileWork {
        system,
        calls: Vec::new(alloc),
        turns: 0,
        bytes: Vec::new(alloc),
    }
}

/// The machine has these disks, of which nothing was asked yet.
pub(crate) fn on_disks(m: &mut Machine, disk: RawDisk, system: FileSystem)
    requires idle { disk.requests ≡ [] }
    requires closed { system.devices ≡ replicate 6 None }
    ensures given { m.new ≡ record m.old {
      state = model.on_disks
          (record { blocks = disk.blocks; size = system.blocks; files = system.files }) m.old.state;
    } }
{
    m.files = no_work(*m.released.allocator(), system);
    m.disk = disk;
}
