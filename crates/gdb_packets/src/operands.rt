//! What follows the name of a packet: numbers, threads, or nothing.

ghost use Rattle.std.specs.Prelude.{◌≡◌, MatchOption, None, Some};
ghost use Rattle.gdb_packets.specs.Names.{rest_after};
ghost use Rattle.gdb_packets.specs.Operands as spec;

use crate::commands::{Command, Threads};
use crate::digits::number_in;

/// What follows a name, if bytes begin with it.
pub(crate) fn rest_after<'a>(name: &[u8], bytes: &'a [u8]) -> Option<&'a [u8]>
    ensures rest { MatchOption result (rest_after name.now bytes.now ≡ None) (λ rest. rest_after name.now bytes.now ≡ Some rest.now) }
{
    let mut rest = bytes;
    for byte in name {
        match rest {
            [first, next @ ..] => {
                if *first != *byte {
                    return None;
                }
                rest = next;
            }
            [] => return None,
        }
    }
    Some(rest)
}

/// A number with nothing after it.
pub(crate) fn whole_number(bytes: &[u8]) -> Option<u32>
    ensures number { result ≡ spec.whole_number bytes.now }
{
    match number_in(bytes) {
        Some((number, [])) => Some(number),
        _ => None,
    }
}

/// Two numbers with a comma between them.
pub(crate) fn two_numbers(bytes: &[u8]) -> Option<(u32, u32)>
    ensures numbers { result ≡ spec.two_numbers bytes.now }
{
    match number_in(bytes) {
        Some((first, [b',', rest @ ..])) => Some((first, whole_number(rest)?)),
        _ => None,
    }
}

/// The threads that bytes name: `-1` means all, and 0 any.
pub(crate) fn threads_in(bytes: &[u8]) -> Option<Threads>
    ensures threads { result ≡ spec.threads_in bytes.now }
{
    if let Some([]) = rest_after(b"-1".as_slice(), bytes) {
        return Some(Threads::Any);
    }
    match whole_number(bytes) {
        Some(0) => Some(Threads::Any),
        Some(number) => Some(Threads::One(number)),
        None => None,
    }
}

/// A command after whose name nothing comes.
pub(crate) fn alone(command: Command, rest: &[u8]) -> Command
    ensures command { result ≡ spec.alone command rest.now }
{
    match rest {
        [] => command,
        [_, ..] => Command::Unknown,
    }
}
