//! The calls of the kernel by their names.

ghost use Rattle.std.specs.Prelude.{◌≡◌, ◌≤◌, IfSome};
ghost use Rattle.asm_syntax.specs.Values as values;
ghost use Rattle.xinu_base.specs.Syscalls as syscalls;

use xinu_base::{CALLS, call_name};

/// The number of the call of a name. `None` if and only if no call has the name.
pub fn call_of(name: &[u8]) -> Option<u32>
    ensures call { result ≡ values.call_of name.now }
    ensures small { IfSome result (λ n. n ≤ syscalls.CALLS) }
{
    for number in 1..CALLS + 1 {
        if call_name(number).as_bytes() == name {
            return Some(number);
        }
    }
    None
}
