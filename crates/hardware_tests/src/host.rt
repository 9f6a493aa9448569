//! The real host: files that it writes and reads, what the system refuses, and what it tells on standard error.

use crate::file_runtime::{FileRuntime, STANDARD_ERROR};
use host_port::{Channel, Host, HostFault, RealHost};
use std::alloc::Global;
use std::fs;
use std::process::Abort;

/// The channels with a file, their files, and the first byte of each.
const FILES: [(Channel, &str, u8); 3] = [
    (Channel::Disk0, "real_host_disk0.img", 0),
    (Channel::Disk1, "real_host_disk1.img", 1),
    (Channel::Image, "real_host_image.img", 2),
];

/// The numbers of bytes, less one, that are read of a file: of one buffer, of more, and of more than there are.
const FRONTS: [usize; 6] = [0, 4095, 4096, 9_998, 9_999, 20_000];

// 10,000 bytes, more than two buffers of a read hold, that differ from one channel to another.
fn long_bytes(rt: &impl Abort, alloc: Global, first: u8) -> Vec<u8> {
    let mut bytes = vec![in alloc; 0u8; 10_000].expect(rt, "memory");
    for n in 0..bytes.len() {
        bytes[n] = (n % 251) as u8 ^ first;
    }
    bytes
}

// Whether the file of a channel that has one can be named.
fn names(host: &mut impl Host, channel: Channel, name: &str) -> bool {
    match channel {
        Channel::Out | Channel::Fault => false,
        Channel::Disk0 => host.name_out(Channel::Disk0, name).is_ok(),
        Channel::Disk1 => host.name_out(Channel::Disk1, name).is_ok(),
        Channel::Image => host.name_out(Channel::Image, name).is_ok(),
    }
}

// Sends nothing, then bytes, to a channel without a file, and to its file then: whether the second alone is refused.
fn begins(host: &mut impl Host, channel: Channel, name: &str) -> bool {
    host.emit(channel, b"").is_ok()
        && host.emit(channel, b"none") == Err(HostFault::Failed)
        && names(host, channel, name)
        && host.emit(channel, b"old").is_ok()
}

// Names the file of a channel again, and sends the halves of its bytes.
fn sends_halves(host: &mut impl Host, channel: Channel, name: &str, bytes: &[u8]) -> bool {
    let (front, back) = bytes.split_at(bytes.len() / 2);
    names(host, channel, name)
        && host.emit(channel, front).is_ok()
        && host.emit(channel, back).is_ok()
}

fn write_files(rt: &impl Abort, host: &mut impl Host, alloc: Global) {
    for (channel, name, first) in &FILES {
        let bytes = long_bytes(rt, alloc, *first);
        assert!(rt; begins(host, *channel, name), "{name}");
        assert!(rt;
            sends_halves(host, *channel, name, bytes.as_slice()),
            "{name}"
        );
    }
}

// Whether a host gives at most one byte more than this of a file.
fn gives(host: &mut impl Host, alloc: Global, name: &str, max: usize, bytes: &[u8]) -> bool {
    match host.fetch(alloc, name, max) {
        Ok(found) => bytes.get(..bytes.len().min(max.saturating_add(1))) == Some(found.as_slice()),
        Err(_) => false,
    }
}

fn read_files(rt: &impl Abort, host: &mut impl Host, alloc: Global) {
    for (_, name, first) in &FILES {
        let bytes = long_bytes(rt, alloc, *first);
        for max in &FRONTS {
            assert!(rt;
                gives(host, alloc, name, *max, bytes.as_slice()),
                "{name} {max}"
            );
        }
    }
}

// Whether all files could be removed.
fn removes_files(rt: &HostRuntime) -> bool {
    for (_, name, _) in &FILES {
        if fs::remove_file(rt, name).is_err() {
            return false;
        }
    }
    true
}

// No file can be fetched.
fn check_removed(rt: &impl Abort, host: &mut impl Host, alloc: Global) {
    for (_, name, _) in &FILES {
        let fault = host.fetch(alloc, name, 8).err();
        assert!(rt; fault == Some(HostFault::Failed), "{name}");
    }
}

#[test]
fn real_host_reads_what_it_wrote(rt: HostRuntime) {
    let mut host = RealHost::new(rt.clone().expect(&rt, "memory"));
    write_files(&rt, &mut host, rt.alloc());
    read_files(&rt, &mut host, rt.alloc());
    assert!(rt; removes_files(&rt));
    check_removed(&rt, &mut host, rt.alloc());
}

/// Bytes on channels, each with whether they are refused: to a channel without a file, and of text and of none.
const WRITES: [(Channel, &[u8], bool); 4] = [
    (Channel::Disk0, b"none", true),
    (Channel::Out, b"out\n", false),
    (Channel::Fault, b"fault\n", false),
    (Channel::Fault, b"\xff", true),
];

// A file that can't be made, and the writes.
fn check_faults(rt: &impl Abort, host: &mut impl Host) {
    assert!(rt; !names(host, Channel::Disk0, "no/such/folder"));
    for (channel, bytes, is_refused) in &WRITES {
        assert!(rt;
            host.emit(*channel, bytes).is_err() == *is_refused,
            "{bytes:?}"
        );
    }
}

// Whether each write to a device that is always full is refused, if there is such a device.
fn tells_full(host: &mut impl Host) -> bool {
    !names(host, Channel::Image, "/dev/full")
        || host.emit(Channel::Image, b"").is_ok()
            && host.emit(Channel::Image, b"none") == Err(HostFault::Failed)
}

#[test]
fn real_host_tells_a_failing_write(rt: HostRuntime) {
    let mut host = RealHost::new(rt.clone().expect(&rt, "memory"));
    check_faults(&rt, &mut host);
    assert!(rt; tells_full(&mut host));
}

// Whether this was told on standard error, and nothing beside it.
fn was_told(rt: &HostRuntime, text: &str) -> bool {
    match fs::read_to_string(rt, STANDARD_ERROR) {
        Ok(told) => told.as_str() == text && fs::remove_file(rt, STANDARD_ERROR).is_ok(),
        Err(_) => false,
    }
}

#[test]
fn faults_are_told_on_standard_error(rt: HostRuntime) {
    let mut host = RealHost::new(FileRuntime {
        rt: rt.clone().expect(&rt, "memory"),
    });
    assert!(rt; host.emit(Channel::Fault, b"xinu: usage\n").is_ok());
    assert!(rt; was_told(&rt, "xinu: usage\n"));
}
