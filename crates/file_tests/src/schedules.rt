//! Texts with their events, and texts with their faults.

use schedule_file::ScheduleFault::{self, BadLine, TooMany};
use schedule_file::{Event, Schedule};
use std::alloc::Global;
use std::process::Abort;

/// Texts with their events, as repeats of equal ones.
const TEXTS: [(&[u8], &[(Event, u32)]); 10] = [
    (b"step 4", &[(Event::Step, 4)]),
    (b"  # note\n \t \nstep 4\n", &[(Event::Step, 4)]),
    (b"tick 2\r\ntx 3\r\n", &[(Event::Tick, 2), (Event::Tx, 3)]),
    (b"step 007\n\n#", &[(Event::Step, 7)]),
    (
        b"\tdisk0\t3 \t\ndisk1 0000000002",
        &[(Event::Disk0, 3), (Event::Disk1, 2)],
    ),
    (
        b"fail0\n fail1 \n\tdump\n",
        &[(Event::Fail0, 1), (Event::Fail1, 1), (Event::Dump, 1)],
    ),
    (
        b"type 6A 6a 0D",
        &[(Event::Key(106), 2), (Event::Key(13), 1)],
    ),
    (b"# step 1 \n", &[]),
    (b"", &[]),
    (
        b"type 61 62\nround 1",
        &[
            (Event::Key(97), 1),
            (Event::Key(98), 1),
            (Event::Step, 1000),
            (Event::Tx, 64),
            (Event::Disk1, 8),
            (Event::Disk0, 8),
            (Event::Tick, 1),
        ],
    ),
];

/// Texts with their faults. Three have as many events as there may be.
const FAULTS: [(&[u8], Option<ScheduleFault>); 25] = [
    (b"step 0", Some(BadLine(1))),
    (b"step 00000000001", Some(BadLine(1))),
    (b"step 1000000001", Some(BadLine(1))),
    (b"step +1", Some(BadLine(1))),
    (b"step", Some(BadLine(1))),
    (b"step 1 2", Some(BadLine(1))),
    (b"step 1\r", Some(BadLine(1))),
    (b"step1", Some(BadLine(1))),
    (b"Step 1", Some(BadLine(1))),
    (b"roun", Some(BadLine(1))),
    (b"dump 1", Some(BadLine(1))),
    (b"type ", Some(BadLine(1))),
    (b"type 6 ", Some(BadLine(1))),
    (b"type 61 6g", Some(BadLine(1))),
    (b"type 616", Some(BadLine(1))),
    (b"\n# one\nstep\nroun\n", Some(BadLine(3))),
    (b"step 1000000000\ntick 1", Some(TooMany(2))),
    (b"round 925070", Some(TooMany(1))),
    (b"round 1000000000", Some(TooMany(1))),
    (b"step 1000000000\n\ndump\nroun", Some(TooMany(3))),
    (b"step 1000000000\nroun\ndump", Some(BadLine(2))),
    (b"round 925069\nstep 412", Some(TooMany(2))),
    (b"step 1000000000", None),
    (b"dump\nstep 999999999\n", None),
    (b"round 925069\nstep 411", None),
];

// The schedule of a text.
fn read(rt: &impl Abort, alloc: Global, text: &[u8]) -> Result<Schedule, ScheduleFault> {
    assert!(rt; text.len() < 10_000_000);
    Schedule::read(alloc, text)
}

// Whether a schedule has these events, as repeats of equal ones, and no more.
fn has_events(schedule: &mut Schedule, wanted: &[(Event, u32)]) -> bool {
    for (event, times) in wanted {
        for _ in 0..*times {
            if schedule.next_event() != Some(*event) {
                return false;
            }
        }
    }
    schedule.next_event().is_none()
}

// Whether a text has these events, and no more.
fn asks_for(rt: &impl Abort, alloc: Global, text: &[u8], wanted: &[(Event, u32)]) -> bool {
    match read(rt, alloc, text) {
        Ok(mut schedule) => has_events(&mut schedule, wanted),
        Err(_) => false,
    }
}

// A text that repeats another one after its beginning.
fn repeated(rt: &impl Abort, alloc: Global, first: &str, more: &str, times: u32) -> String {
    let mut text = String::from_str(alloc, first).expect(rt, "memory");
    for _ in 0..times {
        text.push_str(more).expect(rt, "memory");
    }
    text
}

#[test]
fn lines_ask_for_events(rt: HostRuntime) {
    for (text, wanted) in &TEXTS {
        assert!(rt; asks_for(&rt, rt.alloc(), text, wanted), "{text:?}");
    }
    let line = repeated(&rt, rt.alloc(), "type", " 61", 64);
    assert!(rt; asks_for(&rt, rt.alloc(), line.as_bytes(), &[(Event::Key(97), 64)]));
}

#[test]
fn first_faults_are_named(rt: HostRuntime) {
    for (text, wanted) in &FAULTS {
        assert!(rt; read(&rt, rt.alloc(), text).err() == *wanted, "{text:?}");
    }
    let line = repeated(&rt, rt.alloc(), "type", " 61", 65);
    assert!(rt; read(&rt, rt.alloc(), line.as_bytes()).err() == Some(BadLine(1)));
}

// Four MiB of short lines, which a reader that goes over the rest of the text for each line would not get through.
#[test]
fn long_texts_read(rt: HostRuntime) {
    let text = repeated(&rt, rt.alloc(), "", "tx 1\n", 838_860);
    assert!(rt; asks_for(&rt, rt.alloc(), text.as_bytes(), &[(Event::Tx, 838_860)]));
}
