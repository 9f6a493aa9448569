//! The end of an event: the one resched, the replies, and what is printed, as data (book, chapters 5 and 6).

ghost use Rattle.std.specs.Prelude.{◌≡◌, ◌∷◌, [], IfOk, ◌++◌, map, false};
ghost use Rattle.reference_state.specs.Answers.{came_to, IsStart};
ghost use Rattle.reference_state.specs.Happened.{happened};
ghost use Rattle.xinu_model.specs.Machine as model;

use crate::answers::Answer;
use crate::machine::Machine;
use reference_tables::{copied, push};
use xinu_base::{NoMemory, Pid, TranscriptLine};

/// What an event printed, and whether the kernel panicked in it.
#[derive(Drop)]
pub struct Happened {
    /// The lines.
    pub lines: Vec<TranscriptLine>,
    /// Whether the kernel panicked.
    pub panics: bool,
}

impl Machine {
    /// The end of an event in which process `was` ran first: the resched, the replies and the line of the switch, after the first lines.
    pub fn end_of_event(
        &mut self,
        was: Pid,
        first: Vec<TranscriptLine>,
        answer: Answer,
    ) -> Result<Happened, NoMemory>
        ensures ends { IfOk result (λ h. happened h self.new.state ≡ model.end_of_event was first.items (came_to self.old answer)) }
        ensures start { IfOk result (λ _. IsStart self.new) }
    {
        let mut lines = first;
        let replies = self.replies(answer)?;
        push_replies(&mut lines, &replies)?;
        self.end_event(answer, &replies)?;
        let is = self.current();
        push_switch(&mut lines, was, is)?;
        let panics = matches!(answer, Answer::Panics);
        Ok(Happened { lines, panics })
    }

    /// What is printed of the replies to released processes and of a switch; the replies are written.
    pub fn event_result(&mut self, was: Pid) -> Result<Happened, NoMemory>
        ensures result { IfOk result (λ h. happened h self.new.state ≡
            model.event_result was [] self.old.released self.old.state.tables self.old.state false) }
        ensures start { IfOk result (λ _. IsStart self.new) }
    {
        let mut lines = self.no_lines();
        let replies = self.replies(Answer::Silent)?;
        push_replies(&mut lines, &replies)?;
        self.write_replies(&replies);
        self.begin_next();
        let is = self.current();
        push_switch(&mut lines, was, is)?;
        Ok(Happened {
            lines,
            panics: false,
        })
    }

    /// No lines so far.
    pub fn no_lines(&self) -> Vec<TranscriptLine>
        ensures none { result.items ≡ [] }
    {
        Vec::new(*self.released.allocator())
    }

    /// One line.
    pub fn one_line(&self, line: TranscriptLine) -> Result<Vec<TranscriptLine>, NoMemory>
        ensures one { IfOk result (λ l. l.items ≡ line ∷ []) }
    {
        let mut lines = self.no_lines();
        push(&mut lines, line)?;
        Ok(lines)
    }

    // The replies of the event: those of released processes, and then the caller's.
    fn replies(&self, answer: Answer) -> Result<Vec<(Pid, i32)>, NoMemory>
        ensures replies { IfOk result (λ l. l.items ≡ model.replies_of (came_to self.now answer)) }
    {
        let mut replies = copied(&self.released)?;
        if let Answer::Returns(value) = answer {
            push(&mut replies, (self.current(), value))?;
        }
        Ok(replies)
    }

    // Ends the event: its one resched, and these replies, which are those of the event.
    fn end_event(&mut self, answer: Answer, replies: &[(Pid, i32)]) -> Result<(), NoMemory>
        requires replies { replies.now ≡ model.replies_of (came_to self.old answer) }
        ensures ended { IfOk result (λ _. self.new ≡ model.start (model.end_of_event 0 [] (came_to self.old answer)).state) }
    {
        self.close_tables(answer)?;
        self.write_replies(replies);
        self.begin_next();
        Ok(())
    }

    // The event's one resched, if one is owed or the caller runs no longer.
    fn close_tables(&mut self, answer: Answer) -> Result<(), NoMemory>
        ensures closed { IfOk result (λ _. self.new ≡ model.with_tables (model.closed (came_to self.old answer)) self.old) }
    {
        let is_off = matches!(answer, Answer::Waits | Answer::Gone);
        if self.owes_resched || is_off {
            self.tables.resched()?;
        }
        Ok(())
    }

    // The replies, one after another.
    fn write_replies(&mut self, replies: &[(Pid, i32)])
        ensures written { self.new ≡
            record self.old { state = record self.old.state { harts = model.with_replies replies.now self.old.state.harts } } }
    {
        for reply in replies {
            self.write_reply(reply.0, reply.1);
        }
    }

    // A reply in register a0 of a process.
    fn write_reply(&mut self, p: Pid, value: i32)
        ensures written { self.new ≡
            record self.old { state = record self.old.state { harts = model.with_reply self.old.state.harts (p, value) } } }
    {
        self.harts[p.index()].regs[10] = value.cast_unsigned();
    }

    // The next event begins: nobody was released yet, and no resched is owed.
    fn begin_next(&mut self)
        ensures begins { self.new ≡ model.start self.old.state }
    {
        self.released.clear();
        self.owes_resched = false;
    }
}

// The lines of replies.
fn push_replies(lines: &mut Vec<TranscriptLine>, replies: &[(Pid, i32)]) -> Result<(), NoMemory>
    ensures pushed { IfOk result (λ _. lines.new.items ≡ lines.old.items ++ map model.return_line replies.now) }
{
    for reply in replies {
        push_reply(lines, *reply)?;
    }
    Ok(())
}

// The line of a reply.
fn push_reply(lines: &mut Vec<TranscriptLine>, reply: (Pid, i32)) -> Result<(), NoMemory>
    ensures pushed { IfOk result (λ _. lines.new.items ≡ lines.old.items ++ model.return_line reply ∷ []) }
{
    push(lines, TranscriptLine::Return(reply.0, reply.1))
}

// The line of a switch, if there was one.
fn push_switch(lines: &mut Vec<TranscriptLine>, was: Pid, is: Pid) -> Result<(), NoMemory>
    ensures pushed { IfOk result (λ _. lines.new.items ≡ lines.old.items ++ model.switched was is) }
{
    if was == is {
        return Ok(());
    }
    push(lines, TranscriptLine::Switch(is))
}
