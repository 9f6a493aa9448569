//! Who still goes on at the end of a schedule.

use printed_runs::{PROCESSES, Text};
use replayed_run::Replay;
use run_story::{Loops, Story};
use xinu_base::{End, Pid, State};

/// Notes the place of the instruction that the next step executes.
pub(crate) fn note_place(loops: &mut Loops, replay: &Replay) {
    let k = replay.state();
    let process = k.tables.current();
    if process.index() != 0 && k.tables.is_done() {
        let pc = k.harts[process.index()].pc;
        loops.note(process, pc, replay.taken().saturating_add(1));
    }
}

/// Adds a line for each process that goes round in a few instructions at the end of a schedule, or one that the schedule may be too short for the
/// process that runs.
pub(crate) fn add_going(text: &mut Text, loops: &Loops, replay: &Replay, end: End, story: &Story) {
    if !matches!(end, End::Schedule) {
        return;
    }
    for number in 1..PROCESSES {
        let process = Pid::at(number);
        if can_run(replay, process) {
            add_round(text, loops, process, story);
        }
    }
    let current = replay.state().tables.current();
    if current.index() != 0 && loops.round(current).is_none() {
        text.put("The schedule ended while ");
        story.add_who(text, current.index());
        text.put(" runs: perhaps it is too short.\n");
    }
}

// Whether a process runs, or is ready.
fn can_run(replay: &Replay, process: Pid) -> bool {
    matches!(
        replay.state().tables.process(process).state,
        State::Current | State::Ready
    )
}

// Adds the line of a process that goes round.
fn add_round(text: &mut Text, loops: &Loops, process: Pid, story: &Story) {
    if let Some((count, since)) = loops.round(process) {
        story.add_who(text, process.index());
        text.numbered(" executes the same ", count as u64);
        text.put(if count == 1 {
            " instruction"
        } else {
            " instructions"
        });
        text.numbered(" over and over, since event ", since as u64);
        text.put(".\n");
    }
}
