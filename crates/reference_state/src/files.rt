//! Files, and the calls on them that are under way (book, chapter 19).

use crate::bytes::Bytes;
use std::marker::Model;
use xinu_base::{OpenMode, Pid};

/// A file: its name and its bytes.
#[derive(Drop)]
pub struct StoredFile {
    /// Its name.
    pub name: Vec<u8>,
    /// Its bytes.
    pub bytes: Vec<u8>,
}

impl Model for StoredFile {
    ghost use Rattle.xinu_model.specs.Files.Stored as model;

    ghost Value = { model.StoredFile };

    ghost view = { λ f. record { name = f.name.items; bytes = f.bytes.items } };
}

/// What a device has open: the name of its file, the position in it, and whether it may be read and written.
#[derive(Drop)]
pub struct OpenFile {
    /// The name of the file.
    pub name: Vec<u8>,
    /// The position in it, in bytes.
    pub position: u32,
    /// Whether it may be read.
    pub may_read: bool,
    /// Whether it may be written.
    pub may_write: bool,
}

impl Model for OpenFile {
    ghost use Rattle.xinu_model.specs.Files.Systems as model;

    ghost Value = { model.OpenFile };

    ghost view = { λ f. record { name = f.name.items; position = f.position; may_read = f.may_read; may_write = f.may_write } };
}

/// The number of blocks of the disk, the files in the order of their names, and what each device has open.
pub struct FileSystem {
    /// How many blocks the disk has.
    pub blocks: u32,
    /// The files.
    pub files: Vec<StoredFile>,
    /// What each device has open, the first file device first.
    pub devices: Vec<Option<OpenFile>>,
}

impl Drop for FileSystem {
    fn drop(self) {
        let FileSystem {
            blocks: _blocks,
            files: _files,
            devices: _devices,
        } = self;
    }
}

impl Model for FileSystem {
    ghost use Rattle.xinu_model.specs.Files.Systems as model;

    ghost Value = { model.FileSystem };

    ghost view = { λ s. record { blocks = s.blocks; files = s.files.items; devices = s.devices.items } };
}

/// A call on files. Devices are counted from the first file device; the bytes of a write aren't part of it, but their number is.
#[derive(Drop)]
pub enum FileCall {
    /// A file of this name is opened in this mode.
    Open(Bytes, OpenMode),
    /// The file of this name is deleted.
    Delete(Bytes),
    /// A device is closed.
    Close(u32),
    /// So many bytes are read from a device.
    Read(u32, u32),
    /// So many bytes are written to a device.
    Write(u32, u32),
    /// A byte is read from a device.
    Getc(u32),
    /// This byte is written to a device.
    Putc(u32, u8),
    /// A device goes to a position.
    Seek(u32, i32),
    /// The file of a device is emptied.
    Truncate(u32),
    /// The size of a device's file is asked for.
    Size(u32),
}

/// A call on files that was made: who made it, unless that was killed; the call; and the address of its bytes.
pub struct FileRequest {
    /// Who made it.
    pub caller: Option<Pid>,
    /// The call.
    pub call: FileCall,
    /// The address of its bytes in RAM.
    pub at: u32,
}

impl Drop for FileRequest {
    fn drop(self) {
        let FileRequest {
            caller: _caller,
            call: _call,
            at: _at,
        } = self;
    }
}

impl Model for FileRequest {
    ghost use Rattle.reference_state.specs.FileCalls.{file_call_of};
    ghost use Rattle.xinu_model.specs.Files.Work as model;

    ghost Value = { model.FileRequest };

    ghost view = { λ r. record { caller = r.caller; call = file_call_of r.call; at = r.at } };
}

/// The file system, and the calls under way: of the first, how many good completions of the disk it has had, and the bytes of its write.
pub struct FileWork {
    /// The file system.
    pub system: FileSystem,
    /// The calls, in their order.
    pub calls: Vec<FileRequest>,
    /// How many good completions the first one has had.
    pub turns: u32,
    /// The bytes of its write.
    pub bytes: Vec<u8>,
}

impl Drop for FileWork {
    fn drop(self) {
        let FileWork {
            system: _system,
            calls: _calls,
            turns: _turns,
            bytes: _bytes,
        } = self;
    }
}

impl Model for FileWork {
    ghost use Rattle.xinu_model.specs.Files.Work as model;

    ghost Value = { model.FileWork };

    ghost view = { λ w. record { system = w.system; calls = w.calls.items; turns = w.turns; bytes = w.bytes.items } };
}
