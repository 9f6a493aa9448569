//! The session: each packet is answered from the state of the run, and some move it.

ghost use Rattle.std.specs.Prelude.{◌≡◌, ◌&&◌, OnOk, IfSome, [], false, not, true};
ghost use Rattle.gdb_answers.specs.Answers as answers;
ghost use Rattle.gdb_answers.specs.Threads.{shown_process};
ghost use Rattle.gdb_answers.specs.declared.stops.Stop.TheVariants.{Here};
ghost use Rattle.gdb_command.specs.Answered.{IsAnswered};
ghost use Rattle.gdb_command.specs.Deeds as deeds;
ghost use Rattle.gdb_command.specs.Deeds.{Does, IsDone};
ghost use Rattle.gdb_command.specs.Held.{held, standing};
ghost use Rattle.gdb_command.specs.Serving.{IsObeyed};
ghost use Rattle.replayed_run.specs.Replayed.{IsReplayed, IsSameRun};

use crate::looking::answered;
use gdb_answers::Stop;
use gdb_packets::{Command, command_of, frame};
use host_port::HostFault;
use replayed_run::Replay;
use std::alloc::Global;
use watched_run::{WatchedRun, shown};
use xinu_base::Pid;

/// A session.
#[derive(Drop)]
pub(crate) struct Session {
    pub(crate) alloc: Global,
    pub(crate) run: WatchedRun,
    // The process that is looked at, and the one that goes on.
    pub(crate) look: Pid,
    pub(crate) go: Pid,
    // The last stop, and the process that it was told of.
    pub(crate) stop: Stop,
    pub(crate) process: Pid,
    // The last packet that was sent.
    pub(crate) sent: Vec<u8>,
    // Whether packets are acknowledged.
    pub(crate) has_acks: bool,
    // Whether the debugger ended it.
    pub(crate) has_ended: bool,
}

impl Session {
    /// A session at the beginning of a run.
    pub(crate) fn new(alloc: Global, replay: Replay) -> Session
        ensures run { result.run.replay ≡ replay }
        ensures stands { held result ≡ standing Here (shown_process replay.state.tables) (held result) }
        ensures fresh { result.sent.items ≡ [] }
        ensures acknowledges { result.has_acks ≡ true }
        ensures on { result.has_ended ≡ false }
    {
        let process = shown(&replay);
        Session {
            alloc,
            run: WatchedRun::new(alloc, replay),
            look: process,
            go: process,
            stop: Stop::Here,
            process,
            sent: Vec::new(alloc),
            has_acks: true,
            has_ended: false,
        }
    }

    /// Does what a packet asks for, and appends what is answered to nothing.
    ///
    /// # Errors
    /// Out of memory; `Failed` if an event printed something else when it was taken before.
    pub(crate) fn obey(&mut self, payload: &[u8], out: &mut Vec<u8>) -> Result<(), HostFault>
        requires fresh { out.old.items ≡ [] }
        ensures obeyed { OnOk result (IsObeyed self.old self.new payload.now out.new.items) }
    {
        self.run.replay.runs();
        let command = command_of(payload);
        self.carry_out(command, payload, out)?;
        self.has_acks = self.has_acks && !stops_acks(command);
        self.has_ended = ends_session(command);
        Ok(())
    }

    // Answers a command from the state of the run, or does what it asks for.
    fn carry_out(
        &mut self,
        command: Command,
        payload: &[u8],
        out: &mut Vec<u8>,
    ) -> Result<(), HostFault>
        ensures same { OnOk result (IsSameRun self.old.run.replay self.new.run.replay) }
        ensures done { OnOk result (IsDone command payload.now self.old.run.replay.state (held self.old) (held self.new) out.old.items out.new.items) }
        ensures acks { self.new.has_acks ≡ self.old.has_acks }
    {
        match answered(self.alloc, &self.run.replay, self.look, command)? {
            Some(text) => self.reply(text.as_slice(), out),
            None => self.serve(command, payload, out),
        }
    }

    /// Appends the packet of an answer, and keeps it.
    ///
    /// # Errors
    /// Out of memory.
    pub(crate) fn reply(&mut self, text: &[u8], out: &mut Vec<u8>) -> Result<(), HostFault>
        ensures answered { OnOk result (IsAnswered (held self.old) (held self.new) text.now out.old.items out.new.items) }
        ensures stays { self.new.run ≡ self.old.run }
        ensures acks { self.new.has_acks ≡ self.old.has_acks }
    {
        let packet = frame(self.alloc, text)?;
        out.extend_from_slice(packet.as_slice())?;
        self.sent = packet;
        Ok(())
    }
}

// Whether packets are no longer acknowledged after a command.
fn stops_acks(command: Command) -> bool
    ensures stops { result ≡ deeds.stops_acks command }
{
    matches!(command, Command::NoAcks)
}

/// Whether the session ends with a command.
pub(crate) fn ends_session(command: Command) -> bool
    ensures ends { result ≡ deeds.ends_session command }
{
    matches!(command, Command::Kill | Command::Detach)
}
