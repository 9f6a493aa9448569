//! New processes: number, stack, registers and name (book, chapters 4 to 6). The call is `create`.

ghost use Rattle.std.specs.Prelude.{◌≡◌, ◌≤◌, IfOk, IfSome, IfNone, Some, None, take, drop, slice_set, true, false, ◌++◌, length, replicate};
ghost use Rattle.reference_state.specs.Answers.{came_to, IsStart};
ghost use Rattle.xinu_model.specs.Heap.Cells.{take_stack};
ghost use Rattle.xinu_model.specs.Machine.{with_tables};
ghost use Rattle.xinu_model.specs.Memory.{in_ram};
ghost use Rattle.xinu_model.specs.Process.Calls as model;
ghost use Rattle.xinu_model.specs.Process.Creation as creation;
ghost use Rattle.xinu_model.specs.Tables.{move_to, Nowhere};

use crate::harts::set_hart;
use crate::memory_calls::stack_taken;
use reference_state::{Answer, Machine};
use reference_tables::Place;
use rv_hart::Hart;
use xinu_base::{INITRET, MINSTK, NoMemory, Pid, Process, Rest, SYSERR, State, before_zero};

/// What a new process is to be.
#[derive(Clone, Copy)]
pub struct Creation {
    /// The address of the first instruction.
    pub entry: u32,
    /// The bytes of the stack that are asked for.
    pub stack: u32,
    /// The priority.
    pub priority: i16,
    /// What is in registers a0 and a1 at the start.
    pub args: (u32, u32),
}

/// How a process begins: the address of its first instruction, and what is in registers a0 and a1.
#[derive(Clone, Copy)]
pub struct Entry {
    /// The address of the first instruction.
    pub pc: u32,
    /// What is in a0.
    pub x: u32,
    /// What is in a1.
    pub y: u32,
}

/// Call 2: a new process, named by the text at an address; its number. Refused if the priority is below 1, the name doesn't lie in RAM, no
/// number is free or the heap has no such stack.
pub fn create(m: &mut Machine, new: Creation, name: u32) -> Result<Answer, NoMemory>
    requires start { IsStart m.old }
    ensures create { IfOk result (λ a. came_to m.new a ≡
        model.create new.entry new.stack new.priority name new.args.0 new.args.1 m.old.state) }
{
    if new.priority < 1 {
        return Ok(Answer::Returns(SYSERR));
    }
    let Some(name) = name_at(m, name) else {
        return Ok(Answer::Returns(SYSERR));
    };
    let Some(p) = next_process(m) else {
        return Ok(Answer::Returns(SYSERR));
    };
    created(m, p, new, name)
}

// A process of this number is created on a stack of the heap; its number. Refused if there is no such stack.
fn created(m: &mut Machine, p: Pid, new: Creation, name: [u8; 15]) -> Result<Answer, NoMemory>
    requires start { IsStart m.old }
    ensures created { IfOk result (λ a. came_to m.new a ≡
        model.created (Some p) (take_stack (creation.stack_size new.stack) m.old.state.parts.heap) new.entry (creation.stack_size new.stack)
        new.priority name new.args.0 new.args.1 m.old.state) }
{
    let Some(top) = stack_taken(m, new.stack.max(MINSTK)) else {
        return Ok(Answer::Returns(SYSERR));
    };
    let x = new_process(name, new.priority, m.current(), top, stack_size(new.stack));
    let entry = Entry {
        pc: new.entry,
        x: new.args.0,
        y: new.args.1,
    };
    make_process(m, p, x, new_hart(entry, top))?;
    Ok(Answer::Returns(p.index() as i32))
}

/// The size of a stack: at least MINSTK bytes, and a multiple of 8.
pub fn stack_size(wanted: u32) -> u32
    requires few { creation.stack_size wanted ≤ 1048576 }
    ensures size { result ≡ creation.stack_size wanted }
{
    8 * wanted.max(MINSTK).div_ceil(8)
}

/// The registers of a new process: x1 is the address whose execution exits, x2 the top of the stack at a multiple of 16.
pub fn new_hart(entry: Entry, top: u32) -> Hart
    ensures hart { result ≡ creation.new_hart entry.pc top entry.x entry.y }
{
    let mut regs = [0; 32];
    regs[1] = INITRET;
    regs[2] = top - top % 16;
    regs[10] = entry.x;
    regs[11] = entry.y;
    Hart { regs, pc: entry.pc }
}

/// A new process on a stack; it is suspended.
pub fn new_process(name: [u8; 15], priority: i16, parent: Pid, top: u32, size: u32) -> Process
    ensures process { result ≡ creation.new_process name priority parent top size }
{
    Process {
        state: State::Suspended,
        priority,
        parent,
        name,
        stack: top,
        stack_size: size,
        rest: Rest::Nothing,
    }
}

/// Process `p` is made, with its registers, and the search for the next number begins after it.
pub fn make_process(m: &mut Machine, p: Pid, x: Process, hart: Hart) -> Result<(), NoMemory>
    ensures made { IfOk result (λ _. m.new ≡ record m.old {
      state = record m.old.state {
        tables = record (move_to p x None Nowhere m.old.state.tables) { last_process = p };
        harts = slice_set m.old.state.harts p hart;
      };
    }) }
{
    m.move_to(p, x, None, Place::Nowhere)?;
    set_last(m, p);
    set_hart(m, p, hart);
    Ok(())
}

// The process number that was given last.
fn set_last(m: &mut Machine, p: Pid)
    ensures last { m.new ≡ with_tables (record m.old.state.tables { last_process = p }) m.old }
{
    m.tables.last_process = p;
}

// The free number that the next process gets.
fn next_process(m: &Machine) -> Option<Pid>
    ensures found { result ≡ creation.free_process m.now.state.tables }
{
    m.tables.free_process()
}

// The name at an address, as a process has it. `None` if and only if its bytes don't lie in RAM.
fn name_at(m: &Machine, a: u32) -> Option<[u8; 15]>
    ensures named { IfSome result (λ name. name ≡ creation.process_name (take 16 (drop a m.now.state.memory))) }
    ensures there { IfSome result (λ _. in_ram a 16 ≡ true) }
    ensures outside { IfNone result (in_ram a 16 ≡ false) }
{
    match m.memory.copy_out(a, 16) {
        Ok(bytes) => Some(process_name(bytes)),
        Err(_) => None,
    }
}

// A name as a process has it: at most fifteen bytes, with zeros after its end.
fn process_name(bytes: &[u8]) -> [u8; 15]
    ensures name { result ≡ creation.process_name bytes.now }
{
    let name = before_zero(bytes);
    if name.len() > 15 {
        padded(&name[..15])
    } else {
        padded(name)
    }
}

// At most fifteen bytes, with zeros after them.
fn padded(name: &[u8]) -> [u8; 15]
    requires short { length name.now ≤ 15 }
    ensures padded { result ≡ take 15 (name.now ++ replicate 15 0) }
{
    let mut bytes = [0; 15];
    bytes[..name.len()].copy_from_slice(name);
    bytes
}
