//! The host of the program: real files, standard output and standard error.
//!
//! This is the edge of the machine, and trusted: no clause says what the system did with the bytes.

use crate::host::{Channel, Host, HostFault};
use crate::streams::{read_front, write_whole};
use std::alloc::Global;
use std::rt::Runtime;
use std::{fs, io, str};

/// Files, standard output and standard error. The count of faults is observable, what was read or written is not.
///
/// Each call of the system that fails is a fault, and so is a write that takes nothing. `Out` is standard output and `Fault`
/// standard error, which takes text alone. Bytes for a channel that has no file are a fault; an `emit` of nothing is none.
#[derive(Drop)]
pub struct RealHost<R: Runtime> {
    rt: R,
    disk0: Option<R::File>,
    disk1: Option<R::File>,
    image: Option<R::File>,
    faults: u64,
}

impl<R: Runtime> RealHost<R> {
    ghost use Rattle.std.specs.Prelude.{◌≡◌, ◌<◌, ◌^◌};
    ghost use Rattle.host_port.specs.HostCalls.{HasCause};

    /// A host whose channels have no files yet, and no faults.
    pub fn new(rt: R) -> RealHost<R>
        ensures unfailed { result.faults ≡ 0 }
    {
        RealHost {
            rt,
            disk0: None,
            disk1: None,
            image: None,
            faults: 0,
        }
    }

    // Counts a fault, if there was one.
    fn count<T>(&mut self, done: Result<T, HostFault>) -> Result<T, HostFault>
        ensures same { result ≡ done }
        ensures cause { HasCause self.old.faults self.new.faults result }
        ensures count { self.new.faults < 2 ^ 64 }
    {
        let faults = self.faults;
        if let Err(HostFault::Failed) = &done {
            self.faults = faults.saturating_add(1);
        }
        done
    }
}

impl<R: Runtime> Host for RealHost<R> {
    ghost use Rattle.host_port.specs.Outside.{unobservable};

    ghost view = { λ h. unobservable h.faults };

    fn fetch(&mut self, alloc: Global, path: &str, max: usize) -> Result<Vec<u8>, HostFault> {
        let fetched = match fs::open(&self.rt, path) {
            Ok(mut file) => read_front(&mut file, alloc, max),
            Err(_) => Err(HostFault::Failed),
        };
        self.count(fetched)
    }

    fn name_out(&mut self, channel: Channel, path: &str) -> Result<(), HostFault> {
        let (file, made) = match fs::create(&self.rt, path) {
            Ok(file) => (Some(file), Ok(())),
            Err(_) => (None, Err(HostFault::Failed)),
        };
        match channel {
            Channel::Disk0 => self.disk0 = file,
            Channel::Disk1 => self.disk1 = file,
            Channel::Image => self.image = file,
            Channel::Out | Channel::Fault => {}
        }
        self.count(made)
    }

    fn emit(&mut self, channel: Channel, bytes: &[u8]) -> Result<(), HostFault> {
        let sent = match channel {
            Channel::Out => write_whole(&mut io::writer(&self.rt), bytes),
            Channel::Fault => write_text(&self.rt, bytes),
            Channel::Disk0 => write_file(&mut self.disk0, bytes),
            Channel::Disk1 => write_file(&mut self.disk1, bytes),
            Channel::Image => write_file(&mut self.image, bytes),
        };
        self.count(sent)
    }
}

// Writes text to standard error.
fn write_text<R: Eprint>(rt: &R, bytes: &[u8]) -> Result<(), HostFault> {
    match str::from_utf8(bytes) {
        Ok(text) => rt.eprint(text).map_err(|_| HostFault::Failed),
        Err(_) => Err(HostFault::Failed),
    }
}

// Writes bytes to the file of a channel.
fn write_file<F: io::Write>(file: &mut Option<F>, bytes: &[u8]) -> Result<(), HostFault> {
    match file {
        Some(file) => write_whole(file, bytes),
        None if bytes.is_empty() => Ok(()),
        None => Err(HostFault::Failed),
    }
}
