//! Which process acts next, and which one is looked at.

ghost use Rattle.std.specs.Prelude.{◌≡◌, length};
ghost use Rattle.gdb_answers.specs.Threads as threads;
ghost use Rattle.watched_run.specs.Moments as moments;
ghost use Rattle.xinu_model.specs.Events.{is_done};
ghost use Rattle.xinu_model.specs.Tables.{process_at};

use gdb_answers::{process_of, shown_process};
use kernel_state::KernelState;
use replayed_run::Replay;
use rv_hart::Ram;
use xinu_base::{Event, Pid};

/// The process whose instruction the next event carries out, if it does so.
pub(crate) fn actor(replay: &Replay) -> Option<Pid>
    ensures actor { result ≡ moments.actor replay.now }
{
    match next_event(replay) {
        Some(Event::Step) => stepping(replay.state()),
        _ => None,
    }
}

// The event that comes next, if any does.
fn next_event(replay: &Replay) -> Option<Event>
    ensures next { result ≡ moments.next_event replay.now }
{
    replay.next()
}

// The process whose instruction a step carries out: not the null process, and nothing is left of a call.
fn stepping(k: &KernelState) -> Option<Pid>
    ensures stepping { result ≡ moments.stepping k.now.call.state }
{
    let current = k.tables.current();
    if current.index() == 0 || !is_done(k) {
        None
    } else {
        Some(current)
    }
}

// Whether nothing is left of the current process's call.
fn is_done(k: &KernelState) -> bool
    ensures done { result ≡ is_done (process_at k.now.call.state.tables k.now.call.state.tables.current).rest }
{
    k.tables.is_done()
}

/// The address of the next instruction of a process.
pub(crate) fn pc_of(replay: &Replay, p: Pid) -> u32
    ensures pc { result ≡ moments.pc_of replay.now.state p }
{
    pc_in(replay.state(), p)
}

// The address of the next instruction of a process in a state.
fn pc_in(k: &KernelState, p: Pid) -> u32
    ensures pc { result ≡ moments.pc_of k.now.call.state p }
{
    k.harts[p.index()].pc
}

/// RAM of the state.
pub(crate) fn ram_of(replay: &Replay) -> &Ram
    ensures ram { result.now ≡ replay.now.state.memory }
    ensures whole { length replay.now.state.memory ≡ 1048576 }
{
    ram_in(replay.state())
}

// RAM of a state.
fn ram_in(k: &KernelState) -> &Ram
    ensures ram { result.now ≡ k.now.call.state.memory }
{
    &k.ram
}

/// The process that is looked at first.
pub fn shown(replay: &Replay) -> Pid
    ensures shown { result ≡ threads.shown_process replay.now.state.tables }
{
    shown_in(replay.state())
}

// The process of a state that is looked at first.
fn shown_in(k: &KernelState) -> Pid
    ensures shown { result ≡ threads.shown_process k.now.call.state.tables }
{
    shown_process(&k.tables)
}

/// The process of a thread's number, if there is one.
pub fn thread_process(replay: &Replay, thread: u32) -> Option<Pid>
    ensures process { result ≡ threads.process_of replay.now.state.tables thread }
{
    process_in(replay.state(), thread)
}

// The process of a thread's number in a state.
fn process_in(k: &KernelState, thread: u32) -> Option<Pid>
    ensures process { result ≡ threads.process_of k.now.call.state.tables thread }
{
    process_of(&k.tables, thread)
}
