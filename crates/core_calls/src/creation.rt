//! Call 2: a new process (book, chapters 5 and 9, `create.c`).

ghost use Rattle.std.specs.Prelude.{◌≡◌, ◌≤◌, ◌-◌, length, take, drop, IfSome, IfNone, None, Some, true, false};
ghost use Rattle.kernel_state.specs.Results.{came_to, IsStart};
ghost use Rattle.process_core.specs.Starts.{padded};
ghost use Rattle.xinu_model.specs.Memory.{in_ram};
ghost use Rattle.xinu_model.specs.Process.Calls as model;
ghost use Rattle.xinu_model.specs.Process.Creation as creation;

use kernel_state::{Creation, KernelState, make_on_stack};
use rv_hart::Ram;
use xinu_base::{Next, SYSERR, before_zero};

/// Call 2: a new process, which is suspended, and whose name is at an address; its number. Refused if the priority is below 1, the
/// name isn't in RAM, no number is free or the heap has no such stack.
pub(crate) fn create(k: &mut KernelState, new: Creation, name: u32) -> Next
    requires start { IsStart k.old.call }
    ensures create { came_to k.new.call result ≡ model.create new.entry new.stack new.priority name new.args.0 new.args.1 k.old.call.state }
    ensures image { k.new.image ≡ k.old.image }
{
    if new.priority < 1 {
        return Next::Returns(SYSERR);
    }
    let Some(name) = name_at(&k.ram, name) else {
        return Next::Returns(SYSERR);
    };
    let Some(p) = k.tables.place_free() else {
        return Next::Returns(SYSERR);
    };
    let caller = k.tables.current();
    match make_on_stack(
        &mut k.tables,
        &mut k.harts,
        &mut k.heap,
        p,
        caller,
        name,
        new,
    ) {
        Some(_) => Next::Returns(p.index() as i32),
        None => Next::Returns(SYSERR),
    }
}

// The name that begins at an address, at most 15 bytes. `None` if and only if 16 bytes from there on aren't in RAM.
fn name_at(ram: &Ram, a: u32) -> Option<&[u8]>
    ensures named { IfSome result (λ name. padded name.now ≡ creation.process_name (take 16 (drop a ram.now))) }
    ensures short { IfSome result (λ name. length name.now ≤ 15) }
    ensures there { IfSome result (λ _. in_ram a 16 ≡ true) }
    ensures outside { IfNone result (in_ram a 16 ≡ false) }
{
    match ram.copy_out(a, 16) {
        Ok(bytes) => Some(name_in(bytes)),
        Err(_) => None,
    }
}

// The bytes before the first zero, at most 15.
fn name_in(bytes: &[u8]) -> &[u8]
    ensures named { padded result.now ≡ creation.process_name bytes.now }
    ensures short { length result.now ≤ 15 }
{
    let name = before_zero(bytes);
    if name.len() > 15 { &name[..15] } else { name }
}
