//! What is done for a command that isn't answered from the state of the run.

ghost use Rattle.std.specs.Prelude.{◌≡◌, [], OnOk, codes};
ghost use Rattle.gdb_command.specs.Answered.{IsAnswered};
ghost use Rattle.gdb_command.specs.Deeds.{Does, IsMovedBack, IsMovedOn, IsPointed, IsSet};
ghost use Rattle.gdb_command.specs.Held as spec;
ghost use Rattle.gdb_command.specs.Held.{held, standing};
ghost use Rattle.gdb_answers.specs.Stops.{stop_text};
ghost use Rattle.replayed_run.specs.Replayed.{IsSameRun};

use crate::output::push_console_digits;
use crate::session::Session;
use gdb_answers::{stop_text, thread_text};
use gdb_packets::{Command, Point, PointKind, Threads};
use host_port::HostFault;
use watched_run::{Goal, Stopped, go_back, go_on, one_of, thread_process};
use xinu_base::Pid;

impl Session {
    /// Does what a command asks for that isn't answered from the state of the run.
    ///
    /// # Errors
    /// Out of memory; `Failed` if an event printed something else when it was taken before.
    #[tactic(auto, using(replayed_run::proofs::SameRuns::again, replayed_run::proofs::SameRuns::still))]
    pub(crate) fn serve(
        &mut self,
        command: Command,
        payload: &[u8],
        out: &mut Vec<u8>,
    ) -> Result<(), HostFault>
        ensures same { OnOk result (IsSameRun self.old.run.replay self.new.run.replay) }
        ensures does { OnOk result (Does command payload.now (held self.old) (held self.new) out.old.items out.new.items) }
        ensures acks { self.new.has_acks ≡ self.old.has_acks }
    {
        match command {
            Command::Kill => Ok(()),
            Command::Detach => self.reply(b"OK", out),
            Command::Monitor => self.monitor(payload, out),
            Command::Why => self.tell(out),
            Command::CurrentThread => self.tell_thread(out),
            Command::Look(threads) => self.look_at(threads, out),
            Command::Go(threads) => self.let_go(threads, out),
            Command::Set(point) => self.set(point, out),
            Command::Clear(point) => self.clear(point, out),
            Command::Step(threads) => self.step(threads, out),
            Command::Continue => self.forward(&Goal::Point, out),
            Command::ContinueOne(thread) => self.go_alone(thread, out),
            Command::StepBack => self.step_back(out),
            Command::ContinueBack => self.back(&Goal::Point, out),
            Command::Registers
            | Command::Register(_)
            | Command::Memory(_, _)
            | Command::Checksum(_, _)
            | Command::IsAlive(_)
            | Command::Change
            | Command::Resumptions
            | Command::Supported
            | Command::NoAcks
            | Command::Attached
            | Command::Read(_, _, _)
            | Command::Malformed
            | Command::Unknown => self.reply(b"", out),
        }
    }

    // The process of these threads is looked at from now on.
    fn look_at(&mut self, threads: Threads, out: &mut Vec<u8>) -> Result<(), HostFault>
        ensures stays { self.new.run ≡ self.old.run }
        ensures does { OnOk result (Does (Command.Look threads) [] (held self.old) (held self.new) out.old.items out.new.items) }
        ensures acks { self.new.has_acks ≡ self.old.has_acks }
    {
        self.look = self.named(threads, self.look);
        self.reply(b"OK", out)
    }

    // The process of these threads goes on from now on.
    fn let_go(&mut self, threads: Threads, out: &mut Vec<u8>) -> Result<(), HostFault>
        ensures stays { self.new.run ≡ self.old.run }
        ensures does { OnOk result (Does (Command.Go threads) [] (held self.old) (held self.new) out.old.items out.new.items) }
        ensures acks { self.new.has_acks ≡ self.old.has_acks }
    {
        self.go = self.named(threads, self.go);
        self.reply(b"OK", out)
    }

    // The process of a thread, or this one if no thread is named, or the thread is gone.
    fn named(&self, threads: Threads, otherwise: Pid) -> Pid
        ensures named { result ≡ spec.named self.now.run.replay.state.tables threads otherwise }
    {
        match threads {
            Threads::Any => otherwise,
            Threads::One(thread) => match thread_process(&self.run.replay, thread) {
                Some(p) => p,
                None => otherwise,
            },
        }
    }

    // The run is to stop at a point.
    fn set(&mut self, point: Point, out: &mut Vec<u8>) -> Result<(), HostFault>
        ensures stays { self.new.run.replay ≡ self.old.run.replay }
        ensures set { OnOk result (IsSet point.kind (held self.old) (held self.new) out.old.items out.new.items) }
        ensures acks { self.new.has_acks ≡ self.old.has_acks }
    {
        match point.kind {
            PointKind::Break => {
                self.run.set(point.at)?;
                self.reply(b"OK", out)
            }
            PointKind::Write => {
                if self.run.watch(point.at, point.count)? {
                    self.reply(b"OK", out)
                } else {
                    self.reply(b"E01", out)
                }
            }
        }
    }

    // The run is no longer to stop at a point.
    fn clear(&mut self, point: Point, out: &mut Vec<u8>) -> Result<(), HostFault>
        ensures stays { self.new.run.replay ≡ self.old.run.replay }
        ensures pointed { OnOk result (IsPointed (held self.old) (held self.new) (codes "OK") out.old.items out.new.items) }
        ensures acks { self.new.has_acks ≡ self.old.has_acks }
    {
        match point.kind {
            PointKind::Break => self.run.clear(point.at),
            PointKind::Write => self.run.forget(point.at, point.count),
        }
        self.reply(b"OK", out)
    }

    // A process makes one instruction.
    fn step(&mut self, threads: Threads, out: &mut Vec<u8>) -> Result<(), HostFault>
        ensures same { OnOk result (IsSameRun self.old.run.replay self.new.run.replay) }
        ensures does { OnOk result (Does (Command.Step threads) [] (held self.old) (held self.new) out.old.items out.new.items) }
        ensures acks { self.new.has_acks ≡ self.old.has_acks }
    {
        let process = self.named(threads, self.go);
        self.forward(&one_of(process), out)
    }

    // The run goes on, and no stop of another thread is told.
    fn go_alone(&mut self, thread: u32, out: &mut Vec<u8>) -> Result<(), HostFault>
        ensures same { OnOk result (IsSameRun self.old.run.replay self.new.run.replay) }
        ensures does { OnOk result (Does (Command.ContinueOne thread) [] (held self.old) (held self.new) out.old.items out.new.items) }
        ensures acks { self.new.has_acks ≡ self.old.has_acks }
    {
        let process = self.named(Threads::One(thread), self.go);
        self.forward(&Goal::Alone(process), out)
    }

    // A process goes one instruction back.
    fn step_back(&mut self, out: &mut Vec<u8>) -> Result<(), HostFault>
        ensures same { OnOk result (IsSameRun self.old.run.replay self.new.run.replay) }
        ensures does { OnOk result (Does Command.StepBack [] (held self.old) (held self.new) out.old.items out.new.items) }
        ensures acks { self.new.has_acks ≡ self.old.has_acks }
    {
        let goal = one_of(self.go);
        self.back(&goal, out)
    }

    // Goes on, and tells why it stopped.
    #[tactic(auto, using(replayed_run::proofs::SameRuns::again, replayed_run::proofs::SameRuns::still))]
    fn forward(&mut self, goal: &Goal, out: &mut Vec<u8>) -> Result<(), HostFault>
        ensures same { OnOk result (IsSameRun self.old.run.replay self.new.run.replay) }
        ensures moved { OnOk result (IsMovedOn goal.now (held self.old) (held self.new) out.old.items out.new.items) }
        ensures acks { self.new.has_acks ≡ self.old.has_acks }
    {
        let mut console = Vec::new(self.alloc);
        let stopped = go_on(&mut self.run, goal, &mut console)?;
        push_console_digits(self.alloc, console.as_slice(), out)?;
        self.stand(stopped, out)
    }

    // Goes back, and tells why it stopped.
    #[tactic(auto, using(replayed_run::proofs::SameRuns::again, replayed_run::proofs::SameRuns::still))]
    fn back(&mut self, goal: &Goal, out: &mut Vec<u8>) -> Result<(), HostFault>
        ensures same { OnOk result (IsSameRun self.old.run.replay self.new.run.replay) }
        ensures moved { OnOk result (IsMovedBack goal.now (held self.old) (held self.new) out.old.items out.new.items) }
        ensures acks { self.new.has_acks ≡ self.old.has_acks }
    {
        let stopped = go_back(&mut self.run, goal)?;
        self.stand(stopped, out)
    }

    // The run stands.
    fn stand(&mut self, stopped: Stopped, out: &mut Vec<u8>) -> Result<(), HostFault>
        ensures stays { self.new.run ≡ self.old.run }
        ensures stands { OnOk result (IsAnswered (standing stopped.stop stopped.process (held self.old)) (held self.new) (stop_text stopped.stop stopped.process) out.old.items out.new.items) }
        ensures acks { self.new.has_acks ≡ self.old.has_acks }
    {
        let Stopped { stop, process } = stopped;
        self.stop = stop;
        self.process = process;
        self.look = process;
        self.go = process;
        self.tell(out)
    }

    // Tells why the run stands.
    fn tell(&mut self, out: &mut Vec<u8>) -> Result<(), HostFault>
        ensures stays { self.new.run ≡ self.old.run }
        ensures tells { OnOk result (IsAnswered (held self.old) (held self.new) (stop_text self.old.stop self.old.process) out.old.items out.new.items) }
        ensures acks { self.new.has_acks ≡ self.old.has_acks }
    {
        let text = stop_text(self.alloc, self.stop, self.process)?;
        self.reply(text.as_slice(), out)
    }

    // Tells the thread of the last stop.
    fn tell_thread(&mut self, out: &mut Vec<u8>) -> Result<(), HostFault>
        ensures stays { self.new.run ≡ self.old.run }
        ensures does { OnOk result (Does Command.CurrentThread [] (held self.old) (held self.new) out.old.items out.new.items) }
        ensures acks { self.new.has_acks ≡ self.old.has_acks }
    {
        let thread = thread_text(self.alloc, self.process)?;
        let mut text = Vec::from_slice(self.alloc, b"QC")?;
        text.extend_from_slice(thread.as_slice())?;
        self.reply(text.as_slice(), out)
    }
}
