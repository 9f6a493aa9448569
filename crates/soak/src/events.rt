//! The events of a soak test, one after another: the lines that each prints are counted and let go.

ghost use Rattle.std.specs.Prelude.{◌≡◌, ◌+◌, ◌<◌, ◌≤◌, ◌∷◌, [], IfOk, OnOk, List, ℕ, None, false, is_some, length};
ghost use Rattle.host_port.specs.Printing.{Prints};
ghost use Rattle.host_port.specs.QuietHost.{quiet_empty, quiet_view};
ghost use Rattle.machine.specs.RunEnds.{end_of_go};
ghost use Rattle.soak.specs.Counting.{CountsEvent, CountsEvents};
ghost use Rattle.workload.specs.Summaries.{added, counts_of};
ghost use Rattle.xinu_base.specs.declared.lines.TranscriptLine.TheVariants as line;
ghost use Rattle.xinu_model.specs.Events.{panics_in};
ghost use Rattle.xinu_model.specs.Runs.{end_with, is_over};
ghost use Rattle.xinu_model.specs.Text.{tables_of, text};

use host_port::{Channel, Printer, QuietMemoryHost};
use machine::{Go, Machine};
use schedule_file::Schedule;
use std::alloc::Global;
use transcript::render;
use workload::Tally;
use xinu_base::{End, Event, NoMemory, TranscriptLine};

/// Takes the events of a schedule up to the end of the run, and counts the lines that they print: how many were taken, and how the run ended.
///
/// # Errors
/// `NoMemory`.
pub(crate) fn take_events(
    alloc: Global,
    machine: &mut Machine,
    schedule: Schedule,
    tally: &mut Tally,
) -> Result<(u32, End), NoMemory>
    requires over { machine.old.over ≡ false }
    requires few { machine.old.events + length schedule ≤ 1000000 }
    requires texts { tally.old.texts + length schedule ≤ 1000000 }
    ensures taken { IfOk result (λ r. CountsEvents r.0 machine.old.state schedule machine.new.state r.1 tally.old.counts tally.new.counts) }
    ensures texts { OnOk result (tally.new.texts ≤ tally.old.texts + length schedule) }
{
    let mut schedule = schedule;
    let mut taken = 0;
    while let Some(event) = schedule.next_event() {
        taken += 1;
        match take_event(alloc, machine, event, tally)? {
            Go::Goes => {}
            Go::Done => return Ok((taken, End::Done)),
            Go::Panic => return Ok((taken, End::Panic)),
        }
    }
    Ok((taken, End::Schedule))
}

// Takes one event, and counts the lines that it prints.
fn take_event(
    alloc: Global,
    machine: &mut Machine,
    event: Event,
    tally: &mut Tally,
) -> Result<Go, NoMemory>
    requires over { machine.old.over ≡ false }
    requires few { machine.old.events < 1000000 }
    requires texts { tally.old.texts < 1000000 }
    ensures happens { OnOk result (CountsEvent machine.old.state event machine.new.state tally.old.counts tally.new.counts) }
    ensures goes { IfOk result (λ go. end_of_go go ≡ end_with (panics_in machine.old.state event) (is_over machine.new.state)) }
    ensures over { IfOk result (λ go. machine.new.over ≡ is_some (end_of_go go)) }
    ensures events { OnOk result (machine.new.events ≡ machine.old.events + 1) }
    ensures texts { OnOk result (tally.new.texts ≡ tally.old.texts + 1) }
{
    let mut host = QuietMemoryHost::new(alloc);
    let mut out = Printer::new(false);
    let go = machine.event(event, &mut out, &mut host);
    count_sent(&host, &out, tally)?;
    Ok(go)
}

/// Counts the line of the process that runs first.
///
/// # Errors
/// `NoMemory`.
pub(crate) fn count_start(
    alloc: Global,
    machine: &Machine,
    tally: &mut Tally,
) -> Result<(), NoMemory>
    requires texts { tally.old.texts < 1000000 }
    ensures counts { OnOk result (tally.new.counts ≡ added tally.old.counts (counts_of (text (line.Switch machine.now.state.tables.current ∷ [])))) }
    ensures texts { OnOk result (tally.new.texts ≡ tally.old.texts + 1) }
{
    let mut host = QuietMemoryHost::new(alloc);
    let mut out = Printer::new(false);
    machine.start(&mut out, &mut host);
    count_sent(&host, &out, tally)?;
    Ok(())
}

/// Counts the lines of the tables.
///
/// # Errors
/// `NoMemory`.
pub(crate) fn count_tables(
    alloc: Global,
    machine: &Machine,
    tally: &mut Tally,
) -> Result<(), NoMemory>
    requires texts { tally.old.texts < 2000000 }
    ensures counts { OnOk result (tally.new.counts ≡ added tally.old.counts (counts_of (text (tables_of machine.now.state)))) }
    ensures texts { OnOk result (tally.new.texts ≡ tally.old.texts + 1) }
{
    let mut host = QuietMemoryHost::new(alloc);
    let mut out = Printer::new(false);
    machine.dump(&mut out, &mut host);
    count_sent(&host, &out, tally)?;
    Ok(())
}

// Counts what a new printer sent to a new host.
fn count_sent(host: &QuietMemoryHost, out: &Printer, tally: &mut Tally) -> Result<(), NoMemory>
    requires texts { tally.old.texts < 2000000 }
    ensures counts { OnOk result ((sent : List ℕ) → Prints (record { plain = false; failure = None }) out.now quiet_empty (quiet_view host.now) sent → tally.new.counts ≡ added tally.old.counts (counts_of sent)) }
    ensures texts { OnOk result (tally.new.texts ≡ tally.old.texts + 1) }
{
    if out.failed().is_some() {
        return Err(NoMemory);
    }
    tally.add(host.sent(Channel::Out));
    Ok(())
}

/// Counts the last line of a transcript.
pub(crate) fn count_end(end: End, tally: &mut Tally)
    requires texts { tally.old.texts < 2000000 }
    ensures counts { tally.new.counts ≡ added tally.old.counts (counts_of (text (line.End end ∷ []))) }
{
    tally.add(render(&TranscriptLine::End(end)).bytes());
}
