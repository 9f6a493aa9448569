//! New buffer pools: `mkbufpool` (book, chapter 10).

ghost use Rattle.std.specs.Prelude.{◌≡◌, ◌≤◌, ◌+◌, ◌*◌, ◌++◌, ◌∷◌, [], IfOk, IfSome, IfNone, Some, None, nat_lt, if◌then◌else◌, length};
ghost use Rattle.reference_calls.specs.Heaps.{with_heap};
ghost use Rattle.reference_state.specs.Answers.{came_to, IsStart};
ghost use Rattle.xinu_base.specs.declared.semaphores.Owner.TheVariants as owner;
ghost use Rattle.xinu_model.specs.Heap.Cells.{take_memory};
ghost use Rattle.xinu_model.specs.Machine.{with_tables};
ghost use Rattle.xinu_model.specs.Pools.Buffers as buffers;
ghost use Rattle.xinu_model.specs.Pools.Calls as model;
ghost use Rattle.xinu_model.specs.Semaphores.Counts.{free_semaphore, make_semaphore};

use crate::buffers::{addresses, meets_pool};
use reference_calls::memory_calls::memory_taken;
use reference_state::{Answer, BufferPool, Heap, Machine};
use reference_tables::{copied, push};
use xinu_base::{NoMemory, Owner, PoolId, SYSERR, Sem};

/// Call 28: a pool of n buffers of this size, rounded up to whole words; its number. Refused if the size or n is out of bounds, all pools
/// are made, or no memory that meets no other pool or no semaphore is left.
pub fn mkbufpool(m: &mut Machine, size: u32, n: u32) -> Result<Answer, NoMemory>
    requires start { IsStart m.old }
    ensures mkbufpool { IfOk result (λ a. came_to m.new a ≡ model.mkbufpool size n m.old.state) }
{
    if !is_pool_size(size, n) {
        return Ok(Answer::Returns(SYSERR));
    }
    let Some(i) = next_pool(m) else {
        return Ok(Answer::Returns(SYSERR));
    };
    make_pool(m, i, 4 * size.div_ceil(4), n)
}

// Pool `i`, the next one, of n buffers of a size in whole words.
fn make_pool(m: &mut Machine, i: PoolId, size: u32, n: u32) -> Result<Answer, NoMemory>
    requires start { IsStart m.old }
    requires next { i ≡ length m.old.state.parts.pools }
    requires size { size ≤ 8192 }
    requires number { n ≤ 2048 }
    ensures made { IfOk result (λ a. came_to m.new a ≡
        model.made_pool (take_memory (buffers.pool_bytes size n) m.old.state.parts.heap) (free_semaphore m.old.state.tables) size n
        m.old.state) }
{
    let bytes = n * (size + 4);
    let Some(sem) = m.free_semaphore() else {
        return Ok(Answer::Returns(SYSERR));
    };
    let before = copy_heap(m)?;
    let Some(base) = take_place(m, bytes) else {
        return Ok(Answer::Returns(SYSERR));
    };
    if meets(m, base, bytes) {
        put_heap(m, before);
        return Ok(Answer::Returns(SYSERR));
    }
    add_pool(m, base, size, n, sem)?;
    own_semaphore(m, sem, i, n);
    Ok(Answer::Returns(i.index() as i32))
}

// Whether a pool may have n buffers of this size.
fn is_pool_size(size: u32, n: u32) -> bool
    ensures size { result ≡ model.is_pool_size size n }
{
    (8..=8192).contains(&size) && (1..=2048).contains(&n)
}

// The number of the next pool. `None` if and only if all pools are made.
fn next_pool(m: &Machine) -> Option<PoolId>
    ensures next { result ≡ (if nat_lt (length m.now.state.parts.pools) 20 then Some (length m.now.state.parts.pools) else None) }
{
    if m.pools.len() >= 20 {
        return None;
    }
    PoolId::from_word(m.pools.len() as u32)
}

// A heap that is the machine's.
fn copy_heap(m: &Machine) -> Result<Heap, NoMemory>
    ensures same { IfOk result (λ h. h ≡ m.now.state.parts.heap) }
{
    let cells = copied(&m.heap.cells)?;
    Ok(Heap {
        low: m.heap.low,
        cells,
    })
}

// The machine has this heap.
fn put_heap(m: &mut Machine, heap: Heap)
    ensures heap { m.new ≡ with_heap heap m.old }
{
    m.heap = heap;
}

// Memory of the machine's heap, which lies in RAM.
fn take_place(m: &mut Machine, n: u32) -> Option<u32>
    ensures grants { IfSome result (λ a. take_memory n m.old.state.parts.heap ≡
        Some (record { address = a; heap = m.new.state.parts.heap })) }
    ensures refuses { IfNone result (take_memory n m.old.state.parts.heap ≡ None) }
    ensures heap { m.new ≡ with_heap m.new.state.parts.heap m.old }
    ensures stays { IfNone result (m.new ≡ m.old) }
    ensures within { IfSome result (λ a. a + n ≤ 1048576) }
{
    let _ = size_of(&m.heap);
    memory_taken(m, n)
}

// How many cells a heap has, which lie in RAM.
fn size_of(heap: &Heap) -> usize
    ensures cells { result ≡ length heap.now.cells }
    ensures within { heap.now.low + 8 * result ≤ 1048576 }
{
    heap.cells.len()
}

// Whether a range of addresses meets a pool.
fn meets(m: &Machine, base: u32, bytes: u32) -> bool
    ensures meets { result ≡ buffers.meets_pool base bytes m.now.state.parts.pools }
{
    meets_pool(base, bytes, &m.pools)
}

// A pool more, the last, all of whose buffers are free.
fn add_pool(m: &mut Machine, base: u32, size: u32, n: u32, sem: Sem) -> Result<(), NoMemory>
    requires within { base + n * (size + 4) ≤ 1048576 }
    requires size { size ≤ 8192 }
    ensures added { IfOk result (λ _. m.new ≡ record m.old {
      state = record m.old.state {
        parts = record m.old.state.parts {
          pools =
              m.old.state.parts.pools ++ buffers.new_pool base size n sem ∷ [];
        };
      };
    }) }
{
    let mut free = Vec::new(*m.ports.allocator());
    addresses(&mut free, base + 4, size + 4, n)?;
    let pool = BufferPool {
        base,
        size,
        number: n,
        semaphore: sem,
        free,
    };
    push(&mut m.pools, pool)
}

// Pool `i` has a semaphore, with n tokens.
fn own_semaphore(m: &mut Machine, sem: Sem, i: PoolId, n: u32)
    requires most { n ≤ 2147483647 }
    ensures made { m.new ≡ with_tables (make_semaphore sem (owner.Pool i) n m.old.state.tables) m.old }
{
    m.tables.make_semaphore(sem, Owner::Pool(i), n);
}
