//! A new process on a stack of the heap (book, chapters 5 and 9, `create.c`).

ghost use Rattle.std.specs.Prelude.{◌≡◌, ◌≤◌, length, IfSome, IfNone, None, Some, slice_set};
ghost use Rattle.process_core.specs.Starts.{padded};
ghost use Rattle.xinu_model.specs.Heap.Cells as cells;
ghost use Rattle.xinu_model.specs.Process.Creation as creation;
ghost use Rattle.xinu_model.specs.Tables.{move_to, Nowhere, state_at};

use freelist_memory::Heap;
use kernel_tables::KernelTables;
use rv_hart::Hart;
use xinu_base::{INITRET, MINSTK, Pid, State};

/// What a new process is to be.
#[derive(Clone, Copy)]
pub struct Creation {
    /// The address of the first instruction.
    pub entry: u32,
    /// The bytes of the stack that are asked for.
    pub stack: u32,
    /// The scheduling priority.
    pub priority: i16,
    /// What is in registers a0 and a1 at the start.
    pub args: (u32, u32),
}

/// Makes process `p`, whose number is free, suspended on a stack of the heap; the search for the next number begins after it. Its name has
/// at most 15 bytes. The answer is the address of the stack's highest word. `None`, and nothing changes, if and only if the heap has no
/// such stack.
pub fn make_on_stack(
    tables: &mut KernelTables,
    harts: &mut [Hart; 64],
    heap: &mut Heap,
    p: Pid,
    parent: Pid,
    name: &[u8],
    new: Creation,
) -> Option<u32>
    requires free { state_at tables.old p ≡ State.Free }
    requires short { length name.now ≤ 15 }
    ensures stack { IfSome result (λ top. cells.take_stack (creation.stack_size new.stack) heap.old ≡ Some (record { top = top; heap = heap.new })) }
    ensures tables { IfSome result (λ top. tables.new ≡ record (move_to p (creation.new_process (padded name.now) new.priority parent top (creation.stack_size new.stack)) None Nowhere tables.old) { last_process = p }) }
    ensures harts { IfSome result (λ top. harts.new ≡ slice_set harts.old p (creation.new_hart new.entry top new.args.0 new.args.1)) }
    ensures refuses { IfNone result (cells.take_stack (creation.stack_size new.stack) heap.old ≡ None) }
    ensures same_tables { IfNone result (tables.new ≡ tables.old) }
    ensures same_harts { IfNone result (harts.new ≡ harts.old) }
    ensures same_heap { IfNone result (heap.new ≡ heap.old) }
{
    let Some(top) = heap.getstk(new.stack.max(MINSTK)) else {
        return None;
    };
    tables.make(p, new.priority, parent, name, (top, stack_size(new.stack)));
    harts[p.index()] = first_hart(new.entry, top, new.args);
    Some(top)
}

// The registers with which a process begins.
fn first_hart(entry: u32, top: u32, args: (u32, u32)) -> Hart
    ensures hart { result ≡ creation.new_hart entry top args.0 args.1 }
{
    let mut regs = [0; 32];
    regs[1] = INITRET;
    regs[2] = top - top % 16;
    regs[10] = args.0;
    regs[11] = args.1;
    Hart { regs, pc: entry }
}

// The size of a stack: at least MINSTK bytes, and a multiple of 8.
fn stack_size(wanted: u32) -> u32
    requires few { creation.stack_size wanted ≤ 1048576 }
    ensures size { result ≡ creation.stack_size wanted }
{
    8 * wanted.max(MINSTK).div_ceil(8)
}
