//! A plain list of files, and the ten calls on it by the book's rules (chapter 19), with no disk.
//!
//! It is written from the rules alone: a file is a name and its bytes, and all that is known of a disk is how many data blocks and index
//! blocks it has.

ghost use Rattle.std.specs.Prelude.{◌≤◌};

use crate::room::{byte_count, fitting, most_turns};
use local_files::{FileCall, FileDev};
use std::alloc::{AllocError, Global};
use xinu_base::OpenMode;

/// A file: its name, with zeros up to 28 bytes, and its bytes.
#[derive(Drop)]
pub(crate) struct PlainFile {
    pub(crate) name: [u8; 28],
    pub(crate) bytes: Vec<u8>,
}

/// A file that a device has open: its name, the position in bytes, and whether it is read and written.
#[derive(Clone, Copy)]
struct PlainDevice {
    name: [u8; 28],
    position: usize,
    read: bool,
    write: bool,
}

/// The files of a disk, what each device has open, and the bytes that the last call read.
pub(crate) struct PlainFiles {
    blocks: u32,
    files: Vec<PlainFile>,
    devices: [Option<PlainDevice>; 6],
    given: Vec<u8>,
}

impl Drop for PlainFiles {
    fn drop(self) {
        let PlainFiles {
            blocks: _blocks,
            files: _files,
            devices: _devices,
            given: _given,
        } = self;
    }
}

const SYSERR: i32 = -1;

const EOF: i32 = -2;

impl PlainFiles {
    /// No files, on a disk of this many blocks.
    pub(crate) fn new(alloc: Global, blocks: u32) -> PlainFiles {
        PlainFiles {
            blocks,
            files: Vec::new(alloc),
            devices: [None; 6],
            given: Vec::new(alloc),
        }
    }

    /// The files, in the order in which they were made.
    pub(crate) fn files(&self) -> &[PlainFile] {
        &self.files
    }

    /// The bytes that the last call read.
    pub(crate) fn given(&self) -> &[u8] {
        &self.given
    }

    /// Makes a call. `bytes` are those that a write puts. It answers the reply.
    ///
    /// # Errors
    ///
    /// Out of memory.
    pub(crate) fn call(
        &mut self,
        alloc: Global,
        call: &FileCall,
        bytes: &[u8],
    ) -> Result<i32, AllocError> {
        self.given.clear();
        match *call {
            FileCall::Open(name, mode) => self.open(alloc, &name, mode),
            FileCall::Delete(name) => Ok(self.delete(&name)),
            FileCall::Close(d) => Ok(self.close(d)),
            FileCall::Read(d, n) => self.read(alloc, d, n as usize),
            FileCall::Write(d) => self.write(d, bytes),
            FileCall::Getc(d) => Ok(self.getc(d)),
            FileCall::Putc(d, byte) => self.putc(d, byte),
            FileCall::Seek(d, n) => Ok(self.seek(d, n)),
            FileCall::Truncate(d) => Ok(self.truncate(d)),
            FileCall::Size(d) => Ok(self.size(d)),
        }
    }

    // The lowest free device gets the file, which is made if there is none.
    fn open(&mut self, alloc: Global, name: &[u8; 28], mode: OpenMode) -> Result<i32, AllocError> {
        let d = self.free_device();
        if d >= 6 || self.is_open(name) {
            return Ok(SYSERR);
        }
        if self.has(name) {
            if mode.only_new {
                return Ok(SYSERR);
            }
        } else {
            if mode.only_old || self.files.len() >= 78 {
                return Ok(SYSERR);
            }
            self.files.push(PlainFile {
                name: *name,
                bytes: Vec::new(alloc),
            })?;
        }
        self.devices[d] = Some(PlainDevice {
            name: *name,
            position: 0,
            read: mode.read || !mode.write,
            write: mode.write || !mode.read,
        });
        Ok(4 + d as i32)
    }

    // A file that is there, and not open, goes.
    fn delete(&mut self, name: &[u8; 28]) -> i32 {
        let k = self.place(name);
        if k >= self.files.len() || self.is_open(name) {
            return SYSERR;
        }
        self.files.remove(k);
        0
    }

    fn close(&mut self, d: FileDev) -> i32 {
        if self.devices[d.index()].is_none() {
            return SYSERR;
        }
        self.devices[d.index()] = None;
        0
    }

    // The bytes at the position, at most `n` of them.
    fn read(&mut self, alloc: Global, d: FileDev, n: usize) -> Result<i32, AllocError> {
        let Some(f) = self.devices[d.index()] else {
            return Ok(SYSERR);
        };
        if !f.read {
            return Ok(SYSERR);
        }
        if n == 0 {
            return Ok(0);
        }
        self.given = Vec::from_slice(alloc, self.ahead(f, n))?;
        let n = self.given.len();
        if n == 0 {
            return Ok(EOF);
        }
        self.move_to(d, f, f.position.saturating_add(n));
        Ok(count(n))
    }

    // The byte at the position.
    fn getc(&mut self, d: FileDev) -> i32 {
        let Some(f) = self.devices[d.index()] else {
            return SYSERR;
        };
        if !f.read {
            return SYSERR;
        }
        match self.ahead(f, 1).first() {
            None => EOF,
            Some(byte) => {
                let byte = *byte;
                self.move_to(d, f, f.position.saturating_add(1));
                byte as i32
            }
        }
    }

    // As many of the bytes as there is room for.
    fn write(&mut self, d: FileDev, bytes: &[u8]) -> Result<i32, AllocError> {
        let Some(f) = self.devices[d.index()] else {
            return Ok(SYSERR);
        };
        let n = self.fitting(f, bytes.len());
        if !f.write || n < bytes.len().min(1) {
            return Ok(SYSERR);
        }
        self.put(d, f, &bytes[..n])?;
        Ok(count(n))
    }

    fn putc(&mut self, d: FileDev, byte: u8) -> Result<i32, AllocError> {
        let Some(f) = self.devices[d.index()] else {
            return Ok(SYSERR);
        };
        if !f.write || self.fitting(f, 1) == 0 {
            return Ok(SYSERR);
        }
        self.put(d, f, &[byte])?;
        Ok(0)
    }

    // A position up to the end.
    fn seek(&mut self, d: FileDev, n: i32) -> i32 {
        let Some(f) = self.devices[d.index()] else {
            return SYSERR;
        };
        if n < 0 || n as usize > self.bytes_of(&f.name).len() {
            return SYSERR;
        }
        self.move_to(d, f, n as usize);
        0
    }

    // The file is emptied.
    fn truncate(&mut self, d: FileDev) -> i32 {
        let Some(f) = self.devices[d.index()] else {
            return SYSERR;
        };
        let k = self.place(&f.name);
        if !f.write || k >= self.files.len() {
            return SYSERR;
        }
        self.files[k].bytes.clear();
        self.move_to(d, f, 0);
        0
    }

    fn size(&self, d: FileDev) -> i32 {
        match self.devices[d.index()] {
            None => SYSERR,
            Some(f) => count(self.bytes_of(&f.name).len()),
        }
    }

    // The bytes of a file from a device's position on, at most `n`.
    fn ahead(&self, f: PlainDevice, n: usize) -> &[u8] {
        let bytes = self.bytes_of(&f.name);
        let at = f.position.min(bytes.len());
        let n = n.min(bytes.len() - at);
        &bytes[at..at + n]
    }

    // How many of `n` bytes there is room for at a device's position.
    fn fitting(&self, f: PlainDevice, n: usize) -> usize
        ensures most { result ≤ n }
    {
        fitting(
            self.blocks,
            &self.files,
            self.bytes_of(&f.name).len(),
            f.position,
            n,
        )
    }

    // Puts bytes at a device's position, which moves to their end.
    fn put(&mut self, d: FileDev, f: PlainDevice, bytes: &[u8]) -> Result<(), AllocError> {
        let k = self.place(&f.name);
        if k < self.files.len() {
            overwrite(&mut self.files[k].bytes, f.position, bytes)?;
        }
        self.move_to(d, f, f.position.saturating_add(bytes.len()));
        Ok(())
    }

    fn move_to(&mut self, d: FileDev, f: PlainDevice, position: usize) {
        self.devices[d.index()] = Some(PlainDevice { position, ..f });
    }

    // The place of the file of a name; the number of files if there is none.
    fn place(&self, name: &[u8; 28]) -> usize {
        for k in 0..self.files.len() {
            if self.files[k].name == *name {
                return k;
            }
        }
        self.files.len()
    }

    // The bytes of the file of a name; none if there is no such file.
    fn bytes_of(&self, name: &[u8; 28]) -> &[u8] {
        let k = self.place(name);
        if k < self.files.len() {
            &self.files[k].bytes
        } else {
            &[]
        }
    }

    // Whether there is a file of a name.
    fn has(&self, name: &[u8; 28]) -> bool {
        self.place(name) < self.files.len()
    }

    // Whether a device has the file of a name open.
    fn is_open(&self, name: &[u8; 28]) -> bool {
        for d in 0..6 {
            if let Some(f) = self.devices[d] {
                if f.name == *name {
                    return true;
                }
            }
        }
        false
    }

    // The lowest device that has nothing open; 6 if there is none.
    fn free_device(&self) -> usize {
        for d in 0..6 {
            if self.devices[d].is_none() {
                return d;
            }
        }
        6
    }

    /// How many devices have a file open.
    pub(crate) fn open_count(&self) -> u32 {
        let mut n: u32 = 0;
        for d in 0..6 {
            if self.devices[d].is_some() {
                n = n.saturating_add(1);
            }
        }
        n
    }

    /// The name of the file that a call names or has open, or zeros.
    pub(crate) fn name_in(&self, call: &FileCall) -> [u8; 28] {
        match *call {
            FileCall::Open(name, _) => name,
            FileCall::Delete(name) => name,
            FileCall::Close(d) => self.name_at(d),
            FileCall::Read(d, _) => self.name_at(d),
            FileCall::Write(d) => self.name_at(d),
            FileCall::Getc(d) => self.name_at(d),
            FileCall::Putc(d, _) => self.name_at(d),
            FileCall::Seek(d, _) => self.name_at(d),
            FileCall::Truncate(d) => self.name_at(d),
            FileCall::Size(d) => self.name_at(d),
        }
    }

    // The name of the file that a device has open, or zeros.
    fn name_at(&self, d: FileDev) -> [u8; 28] {
        match self.devices[d.index()] {
            None => [0; 28],
            Some(f) => f.name,
        }
    }

    /// How many completions a call may take: 32, and 8 for each data block and index block of its file and for each block of its bytes.
    pub(crate) fn most_turns(&self, call: &FileCall, bytes: usize) -> usize {
        let name = self.name_in(call);
        most_turns(self.bytes_of(&name).len(), byte_count(call, bytes))
    }

    /// The position of a device, if it has a file open.
    pub(crate) fn position(&self, d: FileDev) -> Option<usize> {
        match self.devices[d.index()] {
            None => None,
            Some(f) => Some(f.position),
        }
    }

    /// The size of the file that a device has open, in bytes, or 0.
    pub(crate) fn size_at(&self, d: FileDev) -> usize {
        match self.devices[d.index()] {
            None => 0,
            Some(f) => self.bytes_of(&f.name).len(),
        }
    }
}

// A number of bytes as a reply.
fn count(n: usize) -> i32 {
    if n > 2_147_483_647 { SYSERR } else { n as i32 }
}

// Puts bytes into others from a position on.
fn overwrite(old: &mut Vec<u8>, position: usize, new: &[u8]) -> Result<(), AllocError> {
    if position > old.len() {
        return Ok(());
    }
    let inside = new.len().min(old.len() - position);
    old[position..position + inside].copy_from_slice(&new[..inside]);
    old.extend_from_slice(&new[inside..])?;
    Ok(())
}
