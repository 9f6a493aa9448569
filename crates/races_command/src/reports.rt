//! What the command sends: the table, and the schedule of a row.

ghost use Rattle.std.specs.Prelude.{◌≡◌, ◌≤◌, ◌<◌, [], None, Some, length, map, option_map, IfOk, MatchResult};
ghost use Rattle.std.specs.List.{All, sum};
ghost use Rattle.host_port.specs.Outside.{appended, counted};
ghost use Rattle.host_port.specs.declared.host.Channel.TheVariants as channel;
ghost use Rattle.preemptions.specs.Placements.{IsAscending, IsPlacement};
ghost use Rattle.preemptions.specs.Preempted.{preempted_at};
ghost use Rattle.schedule_file.specs.ScheduleFiles.{events_in};
ghost use Rattle.schedule_text.specs.Written as written;
ghost use Rattle.races_command.specs.Printed as printed;
ghost use Rattle.races_command.specs.Searching as spec;

use crate::faults::{Fault, NO_MEMORY, host_failed};
use crate::showing::table_text;
use host_port::{Channel, Host};
use preemptions::{Stretch, preempt};
use race_tables::Row;
use schedule_text::schedule_text;
use std::alloc::Global;
use xinu_base::{Event, NoMemory};

/// Sends a table: of all placements, or of the first of them; and whether nothing was chosen in their runs.
///
/// # Errors
/// Out of memory; the host failed.
pub(crate) fn send_table<H: Host>(
    alloc: Global,
    table: &[Row],
    most: u32,
    stretch: Stretch,
    base: &[Event],
    are_all: bool,
    are_forced: bool,
    host: &mut H,
) -> Result<(), Fault<'static>>
    requires fits { sum (map (λ row. row.count) table.now) < 18446744073709551616 }
    requires base { length base.now ≤ 1000000 }
    requires most { most ≤ 3 }
    requires placements { All (λ row. IsPlacement most stretch row.first) table.now }
    ensures sends { MatchResult result (λ _. H.view host.new ≡ counted (appended (H.view host.old) channel.Out (printed.table_text are_all are_forced most stretch base.now table.now)) (H.view host.new).faults) (λ fault. spec.StopsIn (printed.table_text are_all are_forced most stretch base.now table.now) None fault (H.view host.old) (H.view host.new)) }
    ensures later { (H.view host.old).faults ≤ (H.view host.new).faults }
{
    let Ok(text) = table_text(alloc, table, most, stretch, base, are_all, are_forced) else {
        return Err(NO_MEMORY);
    };
    match host.emit(Channel::Out, text.as_slice()) {
        Ok(()) => Ok(()),
        Err(fault) => Err(host_failed(fault)),
    }
}

/// Writes the schedule of a row's first placement into a file, if one is named and there is a row with this number, counted from 1.
///
/// # Errors
/// Out of memory; the host failed.
pub(crate) fn write_found<H: Host>(
    alloc: Global,
    table: &[Row],
    most: u32,
    stretch: Stretch,
    base: &[Event],
    found: Option<&str>,
    outcome: u64,
    host: &mut H,
) -> Result<(), Fault<'static>>
    requires base { length base.now ≤ 1000000 }
    requires most { most ≤ 3 }
    requires placements { All (λ row. IsPlacement most stretch row.first) table.now }
    ensures writes { MatchResult result (λ _. H.view host.new ≡ counted (spec.with_file (H.view host.old) (spec.found_file (option_map (λ s. s.now) found.entry) outcome base.now table.now)) (H.view host.new).faults) (λ fault. spec.StopsIn [] (spec.found_file (option_map (λ s. s.now) found.entry) outcome base.now table.now) fault (H.view host.old) (H.view host.new)) }
{
    let Some(name) = found else {
        return Ok(());
    };
    let Some(row) = row_numbered(table, outcome) else {
        return Ok(());
    };
    let Ok(text) = schedule_of(alloc, row.first(), base) else {
        return Err(NO_MEMORY);
    };
    match host.name_out(Channel::Image, name) {
        Ok(()) => {}
        Err(fault) => return Err(host_failed(fault)),
    }
    match host.emit(Channel::Image, text.as_slice()) {
        Ok(()) => Ok(()),
        Err(fault) => Err(host_failed(fault)),
    }
}

// The row with this number, counted from 1, if there is one.
fn row_numbered(table: &[Row], outcome: u64) -> Option<&Row>
    ensures row { option_map (λ row. row.now) result ≡ spec.row_numbered outcome table.now }
{
    if outcome == 0 {
        return None;
    }
    table.get((outcome - 1) as usize)
}

/// The schedule file of the base's events with a placement of quantum ends. Read as a schedule, it gives these events.
///
/// The base has at most 1000000 events, and there are at most three places, in ascending order.
///
/// # Errors
/// `NoMemory`.
pub fn schedule_of(alloc: Global, places: &[u32], base: &[Event]) -> Result<Vec<u8>, NoMemory>
    requires base { length base.now ≤ 1000000 }
    requires places { length places.now ≤ 3 }
    requires ascending { IsAscending places.now }
    ensures text { IfOk result (λ text. text.items ≡ written.schedule_text (preempted_at places.now base.now)) }
    ensures reads { IfOk result (λ text. events_in text.items ≡ Some (preempted_at places.now base.now)) }
{
    let Ok(events) = preempt(alloc, base, places) else {
        return Err(NoMemory);
    };
    schedule_text(alloc, events.as_slice())
}
