//! Runs that can't go on.

ghost use Rattle.std.specs.Prelude.{◌≡◌, true, bytes_eq};
ghost use Rattle.races_command.specs.Stuck as spec;
ghost use Rattle.text_lines.specs.Lines.{lines_of, tokens_of};
ghost use Rattle.std.specs.List.{list_all};

use race_tables::Outcome;
use text_lines::{first_line, first_token};
use xinu_base::End;

/// Whether a run with this outcome is stuck: its schedule ended, and no process is left that can go on by itself or by a device.
pub fn is_stuck(outcome: &Outcome) -> bool
    ensures stuck { result ≡ spec.is_stuck outcome.now }
{
    match outcome.end() {
        End::Schedule => are_blocked(outcome.left()),
        End::Done | End::Panic => false,
    }
}

// Whether these lines say that no process goes on by itself.
fn are_blocked(text: &[u8]) -> bool
    ensures blocked { result ≡ list_all (λ line. spec.is_blocked (tokens_of line)) (lines_of text.now) }
{
    let mut rest = text;
    while !rest.is_empty() {
        let (line, next) = first_line(rest);
        if !is_blocked(line) {
            return false;
        }
        rest = next;
    }
    true
}

// Whether a line says that its process doesn't go on by itself.
fn is_blocked(line: &[u8]) -> bool
    ensures blocked { result ≡ spec.is_blocked (tokens_of line.now) }
{
    let Some((word, rest)) = first_token(line) else {
        return true;
    };
    let Some((number, rest)) = first_token(rest) else {
        return true;
    };
    let Some((state, _)) = first_token(rest) else {
        return true;
    };
    if is_word(word, "proc") {
        is_blocked_state(state)
    } else {
        !is_device_semaphore(number)
    }
}

// Whether a process in this state goes on only if another one lets it.
fn is_blocked_state(state: &[u8]) -> bool
    ensures state { result ≡ spec.is_blocked_state state.now }
{
    is_word(state, "suspend") || (is_word(state, "wait") || is_word(state, "receive"))
}

// Whether a device signals the semaphore of this number.
fn is_device_semaphore(number: &[u8]) -> bool
    ensures device { result ≡ spec.is_device_semaphore number.now }
{
    is_word(number, "0") || (is_word(number, "1") || (is_word(number, "2") || is_word(number, "3")))
}

/// Whether a token is this word.
pub(crate) fn is_word(token: &[u8], word: &str) -> bool
    ensures word { result ≡ bytes_eq token.now word.now }
{
    token == word.as_bytes()
}
