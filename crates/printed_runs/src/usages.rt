//! How each semaphore was used, as calls and replies tell it.

ghost use Rattle.std.specs.Prelude.{◌≡◌, ◌==◌, ◌||◌, ◌∷◌, [], true, List, map, nat_lt, if◌then◌else◌, slice_index_or, slice_set};
ghost use Rattle.printed_runs.specs.Semaphores as specs;
ghost use Rattle.printed_runs.specs.Semaphores.{Knows};
ghost use Rattle.printed_runs.specs.declared.notes.Note.{Note};

use crate::notes::{Asked, Note};
use xinu_base::{Pid, Sem};

/// A process that used a semaphore.
#[derive(Clone, Copy)]
pub struct User {
    /// Its number.
    pub process: Pid,
    /// Whether another process was made with this number since.
    pub is_past: bool,
}

/// How a semaphore was used since it was made.
#[derive(Clone, Copy)]
pub struct Usage {
    /// Who took it last: whose `wait` was answered 0.
    pub taker: Option<User>,
    /// Who signalled it last.
    pub signaller: Option<User>,
    /// How often it was signalled.
    pub signals: u32,
    /// Whether it is used as a lock so far: it was made with 1, and each process that signalled it had taken it.
    pub is_lock: bool,
    /// If it is used as a lock, whether the process that took it last hasn't signalled it since.
    pub is_held: bool,
}

/// What each process asked for last, and how each semaphore was used.
#[derive(Clone, Copy)]
pub(crate) struct Usages {
    pub(crate) asked: [Asked; 64],
    pub(crate) all: [Usage; 128],
}

impl Usages {
    /// Nothing was said.
    pub(crate) fn new() -> Usages
        ensures knows { Knows [] result }
    {
        Usages {
            asked: [Asked::Other; 64],
            all: [made_with(0); 128],
        }
    }

    /// Notes what a line says.
    pub(crate) fn note(&mut self, note: Note)
        ensures knows { (said : List Note) → Knows said self.old → Knows (note ∷ said) self.new }
    {
        match note {
            Note::Called(process, asked) => self.call(process, asked),
            Note::Answered(process, value) => self.reply(process, value),
            Note::Other => {}
        }
    }

    /// How a semaphore was used.
    pub(crate) fn usage(&self, semaphore: Sem) -> Usage
        ensures usage { (said : List Note) → Knows said self.now → result ≡ specs.usage said semaphore }
    {
        self.all[semaphore.index()]
    }

    // Notes a call.
    fn call(&mut self, process: Pid, asked: Asked)
        ensures knows { (said : List Note) → Knows said self.old → Knows (Note.Called process asked ∷ said) self.new }
    {
        if let Some(semaphore) = called_for(&asked) {
            let number = semaphore.index();
            self.all[number] = after_call(&asked, process, self.all[number]);
        }
        self.asked[process.index()] = asked;
    }

    // Notes the reply to the last call of a process.
    fn reply(&mut self, process: Pid, value: u32)
        ensures knows { (said : List Note) → Knows said self.old → Knows (Note.Answered process value ∷ said) self.new }
    {
        let asked = self.asked[process.index()];
        match asked {
            Asked::Wait(semaphore) => self.took(semaphore, process, value),
            Asked::Semaphore(count) => self.made(value, count),
            Asked::Process => pass(&mut self.all, value),
            _ => {}
        }
    }

    // Notes that a process's `wait` was answered so.
    fn took(&mut self, semaphore: Sem, process: Pid, value: u32)
        ensures took { self.new ≡ record self.old { all = if value == 0 then slice_set self.old.all semaphore (record (slice_index_or self.old.all semaphore (specs.made_with 0)) { taker = specs.used_by process; is_held = true }) else self.old.all } }
    {
        if value == 0 {
            let was = self.all[semaphore.index()];
            self.all[semaphore.index()] = taken(was, process);
        }
    }

    // Notes that a semaphore of this number was made, with this count.
    fn made(&mut self, value: u32, count: u32)
        ensures made { self.new ≡ record self.old { all = if nat_lt value 128 then slice_set self.old.all value (specs.made_with count) else self.old.all } }
    {
        if let Some(semaphore) = Sem::from_word(value) {
            self.all[semaphore.index()] = made_with(count);
        }
    }
}

// A semaphore that was made with this count.
fn made_with(count: u32) -> Usage
    ensures { result ≡ specs.made_with count }
{
    Usage {
        taker: None,
        signaller: None,
        signals: 0,
        is_lock: count == 1,
        is_held: false,
    }
}

// A semaphore that a process took.
fn taken(was: Usage, process: Pid) -> Usage
    ensures { result ≡ record was { taker = specs.used_by process; is_held = true } }
{
    Usage {
        taker: used_by(process),
        is_held: true,
        ..was
    }
}

// A process that uses a semaphore.
fn used_by(process: Pid) -> Option<User>
    ensures { result ≡ specs.used_by process }
{
    Some(User {
        process,
        is_past: false,
    })
}

// The semaphore whose use a call changes.
fn called_for(asked: &Asked) -> Option<Sem>
    ensures { result ≡ specs.called_for asked.now }
{
    match asked {
        Asked::Signal(semaphore) | Asked::SignalMany(semaphore) | Asked::Reset(semaphore) => {
            Some(*semaphore)
        }
        _ => None,
    }
}

// A semaphore after a process's call for it.
fn after_call(asked: &Asked, process: Pid, was: Usage) -> Usage
    ensures { result ≡ specs.after_call asked.now process was }
{
    match asked {
        Asked::Signal(_) => {
            let is_given_back = was.is_held && is_user(process, was.taker);
            Usage {
                signaller: used_by(process),
                signals: was.signals.saturating_add(1),
                is_lock: was.is_lock && is_given_back,
                is_held: false,
                ..was
            }
        }
        Asked::SignalMany(_) => Usage {
            signaller: used_by(process),
            signals: was.signals.saturating_add(1),
            is_lock: false,
            ..was
        },
        Asked::Reset(_) => Usage {
            is_lock: false,
            ..was
        },
        _ => was,
    }
}

// Whether a process used a semaphore, if it has its number still.
fn is_user(process: Pid, user: Option<User>) -> bool
    ensures { result ≡ specs.is_user process user }
{
    match user {
        Some(user) => user.process == process && !user.is_past,
        None => false,
    }
}

// Notes that a process of this number was made, for all semaphores.
fn pass(all: &mut [Usage; 128], process: u32)
    ensures { all.new ≡ map (specs.passed process) all.old }
{
    for number in 0..128usize {
        all[number] = passed(all[number], process);
    }
}

// A semaphore, if a process of this number is made.
fn passed(was: Usage, process: u32) -> Usage
    ensures { result ≡ specs.passed process was }
{
    Usage {
        taker: passed_user(was.taker, process),
        signaller: passed_user(was.signaller, process),
        ..was
    }
}

// A process that used a semaphore, if a process of this number is made.
fn passed_user(user: Option<User>, process: u32) -> Option<User>
    ensures { result ≡ specs.passed_user process user }
{
    match user {
        Some(user) => Some(past(user, process)),
        None => None,
    }
}

// The same of a process that used it.
fn past(user: User, process: u32) -> User
    ensures { result ≡ record user { is_past = user.is_past || (user.process == process) } }
{
    let number = user.process.index();
    User {
        process: user.process,
        is_past: user.is_past || number == process as usize,
    }
}
