//! Whether processes are equal.

ghost use Rattle.std.specs.Prelude.{◌≡◌, ◌↔◌, IsTrue};

use xinu_base::{Process, Rest};

/// Whether two tables have equal entries.
pub(crate) fn are_equal(entries: &[Process; 64], others: &[Process; 64]) -> bool
    ensures equal { IsTrue result ↔ (entries.now ≡ others.now) }
{
    for p in 0..64 {
        if !is_equal(&entries[p], &others[p]) {
            return false;
        }
    }
    true
}

// Whether two entries are equal.
fn is_equal(process: &Process, other: &Process) -> bool
    ensures equal { IsTrue result ↔ (process.now ≡ other.now) }
{
    process.state == other.state
        && process.priority == other.priority
        && process.parent == other.parent
        && process.name == other.name
        && process.stack == other.stack
        && process.stack_size == other.stack_size
        && is_same_rest(&process.rest, &other.rest)
}

// Whether the same is left of two calls.
fn is_same_rest(rest: &Rest, other: &Rest) -> bool
    ensures equal { IsTrue result ↔ (rest.now ≡ other.now) }
{
    match (rest, other) {
        (Rest::Nothing, Rest::Nothing) => true,
        (Rest::Receive, Rest::Receive) => true,
        (Rest::Timed, Rest::Timed) => true,
        (Rest::SelfSuspend, Rest::SelfSuspend) => true,
        (Rest::TtyGet, Rest::TtyGet) => true,
        (Rest::GetBuf(pool), Rest::GetBuf(there)) => pool == there,
        (Rest::PtSend(port, word), Rest::PtSend(there, sent)) => port == there && word == sent,
        (Rest::PtRecv(port), Rest::PtRecv(there)) => port == there,
        (Rest::TtyPut(b, sent), Rest::TtyPut(there, was)) => b == there && sent == was,
        (Rest::TtyRead(span), Rest::TtyRead(there)) => span == there,
        (Rest::TtyWrite(span, sent), Rest::TtyWrite(there, was)) => span == there && sent == was,
        (Rest::Disk(reply), Rest::Disk(there)) => reply == there,
        _ => false,
    }
}
