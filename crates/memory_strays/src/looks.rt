//! What the next step of a state does to memory: the process that executes, its stack, and its store.

ghost use Rattle.std.specs.Prelude.{◌≡◌, ◌<◌, ◌≤◌, ◌+◌, IfSome};
ghost use Rattle.memory_strays.specs.Looks as specs;
ghost use Rattle.xinu_model.specs.Machine.{current_hart};
ghost use Rattle.xinu_model.specs.Sound.State.{IsSound};
ghost use Rattle.xinu_model.specs.Tables.{process_at};

use freelist_memory::Heap;
use kernel_state::KernelState;
use kernel_tables::KernelTables;
use rv_hart::Hart;
use rv_isa::{immediate_s, rs1};
use xinu_base::{Pid, Process, RAM_SIZE};

/// The bytes in which an instruction stores.
#[derive(Clone, Copy)]
pub struct Store {
    /// The address of the first one.
    pub address: u32,
    /// How many there are: 1, 2 or 4.
    pub width: u32,
}

/// Whether the next step executes an instruction.
pub(crate) fn executes(k: &KernelState) -> bool
    ensures executes { result ≡ specs.executes k.now.call.state }
{
    k.tables.current().index() != 0 && k.tables.is_done()
}

/// The registers of the process that runs.
pub(crate) fn current_hart(k: &KernelState) -> Hart
    requires sound { IsSound k.now.call.state }
    ensures hart { result ≡ current_hart k.now.call.state }
{
    k.harts[k.tables.current().index()]
}

/// The store that the next step makes. `None` if it executes no store, or one that is trapped.
pub(crate) fn store_in(k: &KernelState) -> Option<Store>
    requires sound { IsSound k.now.call.state }
    ensures store { result ≡ specs.store_in k.now.call.state }
{
    if !executes(k) {
        return None;
    }
    let hart = current_hart(k);
    store_of(next_word(k, &hart), &hart)
}

// The word at the pc of the process that runs, if RAM has one there.
fn next_word(k: &KernelState, hart: &Hart) -> Option<u32>
    requires hart { hart.now ≡ current_hart k.now.call.state }
    ensures word { result ≡ specs.next_word k.now.call.state }
{
    k.ram.read32(hart.pc)
}

// The store that a word makes.
fn store_of(word: Option<u32>, hart: &Hart) -> Option<Store>
    ensures store { result ≡ specs.store_of word hart.now }
{
    let word = word?;
    made_store(store_width(word), store_address(word, hart))
}

// A store of so many bytes, unless it is trapped.
fn made_store(width: Option<u32>, address: u32) -> Option<Store>
    requires some { IfSome width (λ w. 0 < w) }
    ensures made { result ≡ specs.made_store width address }
{
    let width = width?;
    if address % width == 0 && address as u64 + width as u64 <= RAM_SIZE as u64 {
        Some(Store { address, width })
    } else {
        None
    }
}

// How many bytes the word of a store stores.
fn store_width(word: u32) -> Option<u32>
    ensures width { result ≡ specs.store_width word }
    ensures some { IfSome result (λ w. 0 < w) }
{
    if word % 128 != 0x23 {
        return None;
    }
    match word / 0x1000 % 8 {
        0 => Some(1),
        1 => Some(2),
        2 => Some(4),
        _ => None,
    }
}

// The address at which a store stores.
fn store_address(word: u32, hart: &Hart) -> u32
    ensures address { result ≡ specs.store_address word hart.now }
{
    hart.regs[rs1(word) as usize].wrapping_add(immediate_s(word))
}

/// The lowest address of the stack of a process.
pub(crate) fn stack_low(process: &Process) -> u64
    ensures low { result ≡ specs.stack_low process.now }
    ensures word { result < 4294967300 }
{
    (process.stack as u64 + 4).saturating_sub(process.stack_size as u64)
}

// Whether an address is in the stack of a process.
fn is_in_stack(process: &Process, address: u32) -> bool
    ensures is { result ≡ specs.is_in_stack process.now address }
{
    stack_low(process) <= address as u64 && (address as u64) < process.stack as u64 + 4
}

/// The process in whose stack an address is, if there is one.
pub(crate) fn stack_owner(tables: &KernelTables, address: u32) -> Option<Pid>
    ensures owner { result ≡ specs.stack_owner tables.now address 1 63 }
{
    for number in 1..64 {
        let p = Pid::at(number);
        if is_in_stack(tables.process(p), address) {
            return Some(p);
        }
    }
    None
}

/// Whether an address is in a free block of the heap.
pub(crate) fn is_free(heap: &Heap, address: u32) -> bool
    ensures free { result ≡ specs.is_free heap.now address }
{
    let mut from = 0;
    while let Some((start, bytes)) = heap.block_from(from) {
        if is_in_block(start, bytes, address) {
            return true;
        }
        from = start + bytes;
    }
    false
}

// Whether an address is in a block of memory.
fn is_in_block(start: u32, bytes: u32, address: u32) -> bool
    requires fits { start + bytes ≤ 1048576 }
    ensures is { result ≡ specs.is_in_block address (start, bytes) }
{
    start <= address && address < start + bytes
}
