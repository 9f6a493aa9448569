//! A line of a schedule.

ghost use Rattle.std.specs.Prelude.{◌≡◌, ◌≤◌, ◌<◌, ◌++◌, ◌∷◌, [], length};
ghost use Rattle.schedule_text.specs.Written as spec;

use host_port::Line;
use xinu_base::Event;

/// The line that asks for so many of an event; for one, if the event can't be counted.
pub(crate) fn line_of(event: Event, count: u32) -> Line
    ensures line { result ≡ spec.line_of event count ++ 10 ∷ [] }
    ensures written { spec.IsWritten event }
    ensures size { length result ≤ 18 }
{
    let mut line = Line::new();
    match event {
        Event::Step => push_counted(&mut line, "step", count),
        Event::Tick => push_counted(&mut line, "tick", count),
        Event::Key(byte) => {
            line.word("type ");
            line.hex2(byte);
        }
        Event::Tx => push_counted(&mut line, "tx", count),
        Event::Disk0 => push_counted(&mut line, "disk0", count),
        Event::Disk1 => push_counted(&mut line, "disk1", count),
        Event::Fail0 => line.word("fail0"),
        Event::Fail1 => line.word("fail1"),
        Event::Dump => line.word("dump"),
    }
    line.end();
    line
}

// Makes an empty line that of a name and a count.
fn push_counted(line: &mut Line, name: &str, count: u32)
    requires empty { line.old ≡ [] }
    requires some { 0 < length name.now }
    requires short { length name.now ≤ 5 }
    ensures line { line.new ≡ spec.counted name.now count }
    ensures size { length line.new ≤ 17 }
{
    line.word(name);
    line.number(count as i64);
}

// Whether events that come one after another are on one line.
pub(crate) fn is_joined(event: Event, next: Event) -> bool
    ensures joined { result ≡ spec.is_joined event next }
    ensures written { spec.IsWritten next }
{
    match (event, next) {
        (Event::Step, Event::Step) => true,
        (Event::Tick, Event::Tick) => true,
        (Event::Tx, Event::Tx) => true,
        (Event::Disk0, Event::Disk0) => true,
        (Event::Disk1, Event::Disk1) => true,
        _ => false,
    }
}
