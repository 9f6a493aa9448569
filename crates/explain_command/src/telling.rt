//! What is told of a run so far: the story, and the list of events.

ghost use Rattle.std.specs.Prelude.{◌≡◌, ◌<◌, ◌++◌, ℕ, List, [], Some, None, IfOk};
ghost use Rattle.explain_command.specs.Refusals.{AreRefusals, kinds_told};
ghost use Rattle.explain_command.specs.Stories.{HasParts};
ghost use Rattle.memory_strays.specs.Strays.{note, note_event};
ghost use Rattle.run_story.specs.Endings.{after_line};

use crate::callers::add_callers;
use crate::ends::{push_after, push_end};
use crate::going::{add_going, note_place};
use crate::happenings::Happening;
use crate::left::{head_of, left_text, process_text};
use crate::listing::add_changes;
use crate::reasons::add_reason;
use crate::refusals::refused_text;
use crate::sights::Sight;
use crate::states::{add_lists, add_process, add_stack};
use crate::steps::add_step;
use crate::straying::add_strays;
use crate::stuck::is_stuck;
use crate::traps::{add_trap, add_trap_place};
use crate::words::number_after;
use memory_strays::Strays;
use printed_runs::{PROCESSES, Text};
use process_lives::Lives;
use refused_calls::RefusedCalls;
use replayed_run::Replay;
use run_story::{Loops, Story};
use std::alloc::{AllocError, Global};
use trace_report::event_name;
use xinu_base::{End, Event, Pid};

/// What is told so far.
#[derive(Drop)]
pub(crate) struct Telling {
    alloc: Global,
    pub(crate) story: Story,
    strayed: Text,
    loops: Loops,
    listing: Text,
    /// What was seen ahead of the event in which the kernel panicked.
    panicked: Option<Sight>,
}

impl Telling {
    /// Of no event.
    ///
    /// # Errors
    /// Out of memory.
    pub(crate) fn new(alloc: Global) -> Result<Telling, AllocError> {
        Ok(Telling {
            alloc,
            story: Story::new(alloc),
            strayed: Text::new(alloc),
            loops: Loops::new(alloc)?,
            listing: Text::new(alloc),
            panicked: None,
        })
    }

    /// Notes the event that comes next: a stray, which is told if it is the first of its kind, and where a process is.
    pub(crate) fn note(&mut self, event: Event, replay: &Replay, strays: &mut Strays)
        ensures notes { strays.new ≡ note_event (Some event) replay.now.taken replay.now.state strays.old }
    {
        if matches!(event, Event::Step) {
            note_step(replay, strays);
            add_strays(
                &mut self.strayed,
                strays,
                replay.taken(),
                &self.story,
                replay.files(),
            );
            note_place(&mut self.loops, replay);
        }
    }

    /// Lists an event that was just taken, and the lines that it printed. By what was seen ahead of it: of a step the process, by its number and
    /// name, what it did and what that changed; of another event its name.
    pub(crate) fn list(&mut self, event: Event, shown: &Happening, files: &[Vec<u8>]) {
        let text = &mut self.listing;
        let seen = &shown.seen;
        text.numbered("event ", number_after(seen.taken));
        text.put(": ");
        if matches!(event, Event::Step) {
            self.story.add_who(text, seen.process.index());
            add_step(text, seen, files);
            add_changes(text, &shown.changes);
        } else {
            text.put(event_name(event));
        }
        text.put("\n");
        for line in shown.taken.lines().lines() {
            text.put("    ");
            text.put(line);
            text.put("\n");
        }
    }

    /// Tells where the process was that was trapped in the last event.
    pub(crate) fn trap(&mut self, replay: &Replay, seen: &Sight) {
        let mut text = Text::new(self.alloc);
        add_trap_place(&mut text, seen, replay.files());
        add_reason(&mut text, seen, replay.state(), &self.story);
        add_trap(&mut text, seen, replay.files());
        add_callers(&mut text, replay.state(), seen, replay.files());
        self.story.detail(&text);
    }

    /// The kernel panicked in the last event, ahead of which this was seen.
    pub(crate) fn panic(&mut self, seen: &Sight) {
        self.panicked = Some(*seen);
    }

    /// The list, if one is asked for, and the story after it, if the run ended so: of refused calls each, or each kind once, and of who is left also where it is.
    ///
    /// # Errors
    /// Out of memory, also if it ran out before.
    pub(crate) fn text(
        &self,
        replay: &Replay,
        refused: &RefusedCalls,
        lives: &Lives,
        tells_each: bool,
        end: End,
        steps: Option<(u64, u64)>,
    ) -> Result<Vec<u8>, AllocError>
        ensures parts { IfOk result (λ text. HasParts steps (kinds_told tells_each refused.now) lives.now replay.now end text.items) }
    {
        let mut told = Vec::new(self.alloc);
        told.extend_from_slice(self.list_asked(steps).as_bytes())?;
        push_end(&mut told, replay, end, self.panicked)?;
        let traps = self.traps()?;
        told.extend_from_slice(traps.as_bytes())?;
        let refusals = self.refusals(replay, refused, tells_each)?;
        told.extend_from_slice(refusals.as_slice())?;
        told.extend_from_slice(head_of(replay).as_bytes())?;
        let left = left_text(self.alloc, replay, lives, &self.story)?;
        told.extend_from_slice(left.as_slice())?;
        let rest = self.rest(replay, end)?;
        told.extend_from_slice(rest.as_bytes())?;
        Ok(told)
    }

    // The list, or nothing if none is asked for.
    fn list_asked(&self, steps: Option<(u64, u64)>) -> &str
        ensures unlisted { steps ≡ None → result.now ≡ [] }
    {
        match steps {
            Some(_) => self.listing.as_str(),
            None => "",
        }
    }

    // The traps and the strays.
    fn traps(&self) -> Result<String, AllocError> {
        let mut text = Text::new(self.alloc);
        text.note(self.listing.is_whole());
        self.story.tell_traps(&mut text);
        text.add(&self.strayed);
        text.whole()
    }

    // What is told of the calls that were refused: each, or each kind once.
    fn refusals(
        &self,
        replay: &Replay,
        refused: &RefusedCalls,
        tells_each: bool,
    ) -> Result<Vec<u8>, AllocError>
        ensures told { IfOk result (λ text. AreRefusals (kinds_told tells_each refused.now) text.items) }
    {
        refused_text(
            self.alloc,
            refused.as_slice(),
            tells_each,
            &self.story,
            replay.files(),
        )
    }

    // What is told after who is left.
    fn rest(&self, replay: &Replay, end: End) -> Result<String, AllocError> {
        let mut text = Text::new(self.alloc);
        if is_stuck(replay) {
            text.put("Nobody can go on: each waits for another process.\n");
        }
        add_going(&mut text, &self.loops, replay, end, &self.story);
        self.story.tell_rest(&mut text);
        text.whole()
    }

    /// The state after the events that were taken: of each process what it does, and where it is, and the lists.
    ///
    /// # Errors
    /// Out of memory, also if it ran out before.
    pub(crate) fn state_text(
        &self,
        replay: &Replay,
        lives: &Lives,
        tables: &str,
    ) -> Result<Vec<u8>, AllocError>
        ensures parts { IfOk result (λ text. (rest : List ℕ) × (text.items ≡ after_line replay.now.taken replay.now.state.tables.ticks ++ rest)) }
    {
        let mut told = Vec::new(self.alloc);
        push_after(&mut told, replay)?;
        let rest = self.state_rest(replay, lives, tables)?;
        told.extend_from_slice(rest.as_slice())?;
        Ok(told)
    }

    // What is told of a state after the first line.
    fn state_rest(
        &self,
        replay: &Replay,
        lives: &Lives,
        tables: &str,
    ) -> Result<Vec<u8>, AllocError> {
        let mut told = Vec::new(self.alloc);
        for number in 1..PROCESSES {
            let text = process_text(self.alloc, replay, lives, &self.story, number)?;
            if !text.is_empty() {
                told.extend_from_slice(text.as_slice())?;
                let more = self.process_rest(replay, tables, number)?;
                told.extend_from_slice(more.as_bytes())?;
            }
        }
        let lists = self.lists(tables)?;
        told.extend_from_slice(lists.as_bytes())?;
        Ok(told)
    }

    // The priority, the message and the stack of a process.
    fn process_rest(
        &self,
        replay: &Replay,
        tables: &str,
        number: usize,
    ) -> Result<String, AllocError>
        requires below { number < 64 }
    {
        let mut text = Text::new(self.alloc);
        add_process(&mut text, tables, number);
        add_stack(&mut text, replay.state(), Pid::at(number));
        text.whole()
    }

    // The lists of a state.
    fn lists(&self, tables: &str) -> Result<String, AllocError> {
        let mut text = Text::new(self.alloc);
        add_lists(&mut text, &self.story, tables);
        text.whole()
    }
}

// Notes the step that comes next.
fn note_step(replay: &Replay, strays: &mut Strays)
    ensures notes { strays.new ≡ note replay.now.taken replay.now.state strays.old }
{
    strays.note(replay.state(), replay.taken());
}
