//! The tokens of the console's semaphores: a caller takes one or waits for it, goes on with it, and takes an item or puts a byte by it; items
//! that are committed and bytes that are sent are signals (book, chapter 15, `ttygetc.c`, `ttyputc.c`).
//!
//! Who has a token of the input finds an item that is promised to nobody else (`HasItem`), and who has one of the output finds room
//! (`HasPlace`). A step inside a call says for every continuation what it leaves to be done.

ghost use Rattle.std.specs.Prelude.{◌≡◌, ◌<◌, ◌∷◌, [], true, slice_index};
ghost use Rattle.io_calls.specs.Consoles.{Begins, GoesOn, HasItem, HasPlace, if_taken};
ghost use Rattle.xinu_model.specs.Console.Putting as model;
ghost use Rattle.xinu_model.specs.Console.Taking as taking;
ghost use Rattle.xinu_model.specs.Machine as machine;
ghost use Rattle.xinu_model.specs.Machine.{Xinu, CallResult};
ghost use Rattle.xinu_model.specs.Memory.{ram_size, with_bytes};
ghost use Rattle.xinu_model.specs.Messages.{held};
ghost use Rattle.xinu_model.specs.Semaphores.Waiting.{await};
ghost use Rattle.xinu_model.specs.Sound.Tables.{asks_input, asks_output, IsSoundTables};
ghost use Rattle.xinu_model.specs.Tables.{semaphore_at};

use kernel_state::KernelState;
use tty_driver::TtyMode;
use xinu_base::{Rest, Sem};

const TY_NEWLINE: u8 = 0x0A;

const TY_RETURN: u8 = 0x0D;

/// The caller takes a token of the input, or waits for one with this left of its call. True if and only if it has one.
pub(crate) fn await_item(k: &mut KernelState, rest: Rest) -> bool
    requires begins { Begins k.old.call }
    requires asks { asks_input rest ≡ true }
    ensures waits { (then_ : Xinu → CallResult) → await taking.TY_ISEM rest then_ k.old.call.state ≡ if_taken result then_ k.new.call }
    ensures item { result ≡ true → HasItem k.new.call }
    ensures image { k.new.image ≡ k.old.image }
{
    k.tables.wait(input_sem(), rest)
}

/// The caller, which was released with a token of the input, goes on.
pub(crate) fn resume_item(k: &mut KernelState)
    requires goes_on { GoesOn asks_input k.old.call }
    ensures goes_on { k.new.call.state ≡ machine.goes_on (held k.old.call.state) k.old.call.state }
    ensures item { HasItem k.new.call }
    ensures image { k.new.image ≡ k.old.image }
{
    k.tables.go_on();
}

/// The caller takes a token of the output, or waits for one with this left of its call. True if and only if it has one.
pub(crate) fn await_place(k: &mut KernelState, rest: Rest) -> bool
    requires begins { Begins k.old.call }
    requires asks { asks_output rest ≡ true }
    ensures waits { (then_ : Xinu → CallResult) → await model.TY_OSEM rest then_ k.old.call.state ≡ if_taken result then_ k.new.call }
    ensures place { result ≡ true → HasPlace k.new.call }
    ensures image { k.new.image ≡ k.old.image }
{
    k.tables.wait(output_sem(), rest)
}

/// The caller, which was released with a token of the output, goes on.
pub(crate) fn resume_place(k: &mut KernelState)
    requires goes_on { GoesOn asks_output k.old.call }
    ensures goes_on { k.new.call.state ≡ machine.goes_on (held k.old.call.state) k.old.call.state }
    ensures place { HasPlace k.new.call }
    ensures image { k.new.image ≡ k.old.image }
{
    k.tables.go_on();
}

/// A newline is put by the caller's token.
pub(crate) fn put_newline(k: &mut KernelState)
    requires place { HasPlace k.old.call }
    ensures puts { k.new.call.state ≡ model.put 10 k.old.call.state }
    ensures begins { Begins k.new.call }
    ensures image { k.new.image ≡ k.old.image }
{
    k.tty.put(TY_NEWLINE);
}

/// A byte is put by the caller's token, a newline after its carriage return, for which the caller needs a second token. False if it
/// waits for that, with this left of its call.
pub(crate) fn put_byte(k: &mut KernelState, b: u8, rest: Rest) -> bool
    requires place { HasPlace k.old.call }
    requires asks { asks_output rest ≡ true }
    ensures puts { (then_ : Xinu → CallResult) → model.put_byte b rest then_ k.old.call.state ≡ if_taken result then_ k.new.call }
    ensures begins { result ≡ true → Begins k.new.call }
    ensures image { k.new.image ≡ k.old.image }
{
    if b == TY_NEWLINE && k.tty.mode() != TtyMode::Raw {
        k.tty.put(TY_RETURN);
        if !await_place(k, rest) {
            return false;
        }
        put_newline(k);
        return true;
    }
    k.tty.put(b);
    true
}

/// How many tokens the input has.
pub(crate) fn input_tokens(k: &KernelState) -> u32
    requires sound { IsSoundTables k.now.call.state.tables }
    ensures tokens { result ≡ (semaphore_at k.now.call.state.tables taking.TY_ISEM).tokens }
{
    k.tables.count_of(input_sem()).max(0) as u32
}

/// The byte of RAM at an address.
pub(crate) fn byte_at(k: &KernelState, a: u32) -> u8
    requires there { a < ram_size }
    ensures byte { result ≡ slice_index k.now.call.state.memory a }
{
    k.ram.read8(a).unwrap()
}

/// Stores a byte in RAM.
pub(crate) fn store(k: &mut KernelState, a: u32, b: u8)
    requires there { a < ram_size }
    ensures stored { k.new.call ≡ record k.old.call { state = record k.old.call.state { memory = with_bytes k.old.call.state.memory a 1 (b ∷ []) } } }
    ensures image { k.new.image ≡ k.old.image }
{
    k.ram.write8(a, b);
}

/// The semaphore of the console's input.
pub(crate) fn input_sem() -> Sem
    ensures input { result ≡ taking.TY_ISEM }
{
    Sem::at(0)
}

/// The semaphore of the console's output.
pub(crate) fn output_sem() -> Sem
    ensures output { result ≡ model.TY_OSEM }
{
    Sem::at(1)
}
