//! The actions of a `vCont`: what each thread is to do.

ghost use Rattle.std.specs.Prelude.{◌≡◌, ◌<◌, ◌==◌, ◌∷◌, [], drop, length, IfSome, MatchOption, None};
ghost use Rattle.std.specs.List.{position};
ghost use Rattle.gdb_packets.specs.Actions as spec;

use crate::commands::{Command, Threads};
use crate::operands::threads_in;

/// What a thread is to do.
#[derive(Clone, Copy)]
pub(crate) enum Action {
    /// These threads make one instruction.
    Steps(Threads),
    /// These threads go on.
    Goes(Threads),
    /// Something else.
    Other,
}

/// What the bytes after `vCont;` ask for.
pub(crate) fn resumption(bytes: &[u8]) -> Command
    ensures command { result ≡ spec.resumption bytes.now }
{
    match lone_thread(bytes) {
        Some(thread) => Command::ContinueOne(thread),
        None => of_many(bytes),
    }
}

// The thread that goes on alone, if there is one action and it names the thread.
fn lone_thread(bytes: &[u8]) -> Option<u32>
    ensures thread { result ≡ spec.lone (spec.actions_in bytes.now) }
{
    let (action, rest) = first_action(bytes);
    match rest {
        Some(_) => None,
        None => thread_of(action),
    }
}

// The thread of an action that goes on.
fn thread_of(action: Action) -> Option<u32>
    ensures thread { result ≡ spec.thread_of action }
{
    match action {
        Action::Goes(Threads::One(thread)) => Some(thread),
        Action::Goes(Threads::Any) => None,
        Action::Steps(_) => None,
        Action::Other => None,
    }
}

// What many actions ask for: the first that steps, or is none that is known, decides.
fn of_many(bytes: &[u8]) -> Command
    ensures command { result ≡ spec.of_many (spec.actions_in bytes.now) }
{
    let mut rest = Some(bytes);
    while let Some(actions) = rest {
        let (action, next) = first_action(actions);
        match action {
            Action::Steps(threads) => return Command::Step(threads),
            Action::Goes(_) => rest = next,
            Action::Other => return Command::Malformed,
        }
    }
    Command::Continue
}

// The first action, and the bytes after its semicolon, if it has one.
fn first_action(bytes: &[u8]) -> (Action, Option<&[u8]>)
    ensures actions { MatchOption result.1 (spec.actions_in bytes.now ≡ result.0 ∷ []) (λ rest. spec.actions_in bytes.now ≡ result.0 ∷ spec.actions_in rest.now) }
    ensures more { IfSome result.1 (λ rest. spec.lone (spec.actions_in bytes.now) ≡ None) }
    ensures shorter { IfSome result.1 (λ rest. length rest.now < length bytes.now) }
{
    match semicolon(bytes) {
        Some(i) => (action_in(&bytes[..i]), Some(&bytes[i + 1..])),
        None => (action_in(bytes), None),
    }
}

// The place of the first semicolon.
fn semicolon(bytes: &[u8]) -> Option<usize>
    ensures place { result ≡ position (λ b. b == 59) bytes.now }
{
    bytes.iter().position(|b| *b == b';')
}

// An action.
fn action_in(bytes: &[u8]) -> Action
    ensures action { result ≡ spec.action_in bytes.now }
{
    match bytes {
        [b's', rest @ ..] => steps(rest),
        [b'c', rest @ ..] => goes(rest),
        [b'S', rest @ ..] => steps(without_signal(rest)),
        [b'C', rest @ ..] => goes(without_signal(rest)),
        _ => Action::Other,
    }
}

// The bytes after the two digits of a signal.
fn without_signal(bytes: &[u8]) -> &[u8]
    ensures rest { result.now ≡ drop 2 bytes.now }
{
    match bytes {
        [_, _, rest @ ..] => rest,
        _ => &[],
    }
}

// Steps of any thread, or of those named after a colon.
fn steps(bytes: &[u8]) -> Action
    ensures action { result ≡ spec.acted Action.Steps bytes.now }
{
    match named(bytes) {
        Some(threads) => Action::Steps(threads),
        None => Action::Other,
    }
}

// Any thread goes on, or those named after a colon.
fn goes(bytes: &[u8]) -> Action
    ensures action { result ≡ spec.acted Action.Goes bytes.now }
{
    match named(bytes) {
        Some(threads) => Action::Goes(threads),
        None => Action::Other,
    }
}

// Any thread, or those named after a colon.
fn named(bytes: &[u8]) -> Option<Threads>
    ensures threads { result ≡ spec.named bytes.now }
{
    match bytes {
        [] => Some(Threads::Any),
        [b':', rest @ ..] => threads_in(rest),
        _ => None,
    }
}
