//! The name space as processes call it: `mount` (book, chapter 21, `mount.c`).

ghost use Rattle.std.specs.Prelude.{◌≡◌, is_some, unwrap_or};
ghost use Rattle.io_calls.specs.Mounts.{texts_mounted};
ghost use Rattle.kernel_state.specs.Beginnings.{BeginsAs, next_of};
ghost use Rattle.kernel_state.specs.Results.{came_to, IsStart};
ghost use Rattle.xinu_model.specs.Devices.Texts as texts;
ghost use Rattle.xinu_model.specs.Names.Calls as model;

use crate::texts::text_at;
use device_switch::{Dev, device};
use kernel_state::{Begun, KernelState};
use name_space::Names;
use rv_hart::Ram;
use xinu_base::{Next, SYSERR};

/// Call 44: the text at an address is mounted as a prefix, with another text in its place, for a device. Refused if there is no such
/// device, a text isn't there or has more than 31 bytes, or 40 prefixes are mounted.
pub(crate) fn mount(k: &mut KernelState, prefix: u32, replacement: u32, dev: u32) -> Begun
    requires start { IsStart k.old.call }
    ensures mounts { BeginsAs result (model.mount prefix replacement dev k.old.call.state) k.old.call.state (came_to k.new.call (next_of result)) }
    ensures image { k.new.image ≡ k.old.image }
{
    let Ok(dev) = device(dev) else {
        return Begun::ByRow(Next::Returns(SYSERR));
    };
    if mount_texts(&mut k.names, &k.ram, prefix, replacement, dev) {
        return Begun::ByRow(Next::Returns(0));
    }
    Begun::ByRow(Next::Returns(SYSERR))
}

// Mounts the texts at two addresses. False, and nothing changes, if one isn't there or they may not be mounted.
fn mount_texts(names: &mut Names, ram: &Ram, prefix: u32, replacement: u32, dev: Dev) -> bool
    ensures answer { result ≡ is_some (texts_mounted (texts.text_at prefix ram.now) (texts.text_at replacement ram.now) dev names.old) }
    ensures names { names.new ≡ unwrap_or (texts_mounted (texts.text_at prefix ram.now) (texts.text_at replacement ram.now) dev names.old) names.old }
{
    let Some(prefix) = text_at(ram, prefix) else {
        return false;
    };
    let Some(replacement) = text_at(ram, replacement) else {
        return false;
    };
    names.mount(prefix, replacement, dev)
}
