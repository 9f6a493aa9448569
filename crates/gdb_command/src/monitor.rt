//! What the debugger's `monitor` says.

ghost use Rattle.std.specs.Prelude.{◌≡◌, OnOk};
ghost use Rattle.gdb_command.specs.Console.{Shows};
ghost use Rattle.gdb_command.specs.Held.{held};
ghost use Rattle.gdb_command.specs.Monitor.{asked_by, event_text, event_word, tables_text};
ghost use Rattle.gdb_command.specs.Monitored.{IsGone, IsMonitored, IsShown, IsTranscribed};
ghost use Rattle.gdb_packets.specs.Commands.{monitor_words};
ghost use Rattle.replayed_run.specs.Replayed.{IsSameRun};

use crate::asked::{Asked, asked_by};
use crate::lines_so_far::lines_so_far;
use crate::named_lines::named_lines;
use crate::output::push_print;
use crate::session::Session;
use gdb_answers::Stop;
use host_port::HostFault;
use watched_run::shown;
use xinu_base::Event;

/// What `monitor` can be asked for.
const HELP: &[u8] = b"monitor event\nmonitor tables\nmonitor transcript\nmonitor goto NUMBER\n";

impl Session {
    /// Answers the words after `monitor`.
    ///
    /// # Errors
    /// Out of memory; `Failed` if an event printed something else when it was taken before.
    pub(crate) fn monitor(&mut self, payload: &[u8], out: &mut Vec<u8>) -> Result<(), HostFault>
        ensures same { OnOk result (IsSameRun self.old.run.replay self.new.run.replay) }
        ensures monitored { OnOk result (IsMonitored (asked_by (monitor_words payload.now)) (held self.old) (held self.new) out.old.items out.new.items) }
        ensures acks { self.new.has_acks ≡ self.old.has_acks }
    {
        let asked = asked_by(self.alloc, payload)?;
        self.say(asked, out)?;
        self.reply(b"OK", out)
    }

    // Shows what is asked for.
    #[tactic(auto, using(replayed_run::proofs::SameRuns::again, replayed_run::proofs::SameRuns::still))]
    fn say(&mut self, asked: Asked, out: &mut Vec<u8>) -> Result<(), HostFault>
        ensures same { OnOk result (IsSameRun self.old.run.replay self.new.run.replay) }
        ensures shown { OnOk result (IsShown asked (held self.old) (held self.new) out.old.items out.new.items) }
        ensures acks { self.new.has_acks ≡ self.old.has_acks }
    {
        match asked {
            Asked::Event => self.say_event(out),
            Asked::Tables => self.say_tables(out),
            Asked::Transcript => self.say_transcript(out),
            Asked::Goto(count) => self.go_to(count, out),
            Asked::Help => Ok(push_print(self.alloc, HELP, out)?),
        }
    }

    // Goes to where so many events were taken, and says where the run stands.
    #[tactic(auto, using(replayed_run::proofs::SameRuns::again, replayed_run::proofs::SameRuns::still))]
    fn go_to(&mut self, count: u32, out: &mut Vec<u8>) -> Result<(), HostFault>
        ensures same { OnOk result (IsSameRun self.old.run.replay self.new.run.replay) }
        ensures gone { OnOk result (IsGone count (held self.old) (held self.new) out.old.items out.new.items) }
        ensures acks { self.new.has_acks ≡ self.old.has_acks }
    {
        self.run.forget_trap();
        self.run.replay.seek(count)?;
        self.stop = Stop::Here;
        self.process = shown(&self.run.replay);
        self.say_event(out)
    }

    // Shows the tables.
    fn say_tables(&self, out: &mut Vec<u8>) -> Result<(), HostFault>
        ensures says { OnOk result (Shows (tables_text self.now.run.replay.state) out.old.items out.new.items) }
    {
        match self.run.replay.tables() {
            Ok(lines) => {
                let named = named_lines(self.alloc, lines.bytes())?;
                push_print(self.alloc, named.as_slice(), out)?;
                Ok(())
            }
            Err(_) => Err(HostFault::NoMemory),
        }
    }

    // Shows the lines of the events that were taken.
    fn say_transcript(&mut self, out: &mut Vec<u8>) -> Result<(), HostFault>
        ensures same { OnOk result (IsSameRun self.old.run.replay self.new.run.replay) }
        ensures transcribed { OnOk result (IsTranscribed (held self.old) (held self.new) out.old.items out.new.items) }
        ensures acks { self.new.has_acks ≡ self.old.has_acks }
    {
        let lines = lines_so_far(self.alloc, &mut self.run.replay)?;
        push_print(self.alloc, lines.as_slice(), out)?;
        Ok(())
    }

    // Says how many events were taken, and which comes next.
    fn say_event(&self, out: &mut Vec<u8>) -> Result<(), HostFault>
        ensures says { OnOk result (Shows (event_text self.now.run.replay) out.old.items out.new.items) }
    {
        let taken = self.run.replay.taken();
        let next = event_name(self.run.replay.next());
        let text = format!(in self.alloc; "{taken} events were taken; next: {next}\n")?;
        push_print(self.alloc, text.as_bytes(), out)?;
        Ok(())
    }
}

// The word of an event.
fn event_name(event: Option<Event>) -> &'static str
    ensures word { result.now ≡ event_word event }
{
    match event {
        None => "the end",
        Some(Event::Step) => "step",
        Some(Event::Tick) => "tick",
        Some(Event::Key(_)) => "type",
        Some(Event::Tx) => "tx",
        Some(Event::Disk0) => "disk0",
        Some(Event::Disk1) => "disk1",
        Some(Event::Fail0) => "fail0",
        Some(Event::Fail1) => "fail1",
        Some(Event::Dump) => "dump",
    }
}
