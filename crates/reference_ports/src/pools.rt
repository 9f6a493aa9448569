//! Buffer pools: buffers of one size that processes take and give back, with `getbuf` and `freebuf` (book, chapter 10).

ghost use Rattle.std.specs.Prelude.{◌≡◌, ◌≤◌, ◌<◌, ◌-◌, ◌∷◌, [], IfOk, IfSome, MatchOption, Some, None, nat_lt, if◌then◌else◌, int_lt, true, length, drop, slice_set};
ghost use Rattle.reference_ports.specs.FreeBuffers.{HasOwnFree};
ghost use Rattle.reference_state.specs.Answers.{came_to, IsStart};
ghost use Rattle.xinu_model.specs.Memory.{with_number};
ghost use Rattle.xinu_model.specs.Pools.Buffers.{holder, pool_at, with_free};
ghost use Rattle.xinu_model.specs.Pools.Calls as model;
ghost use Rattle.xinu_model.specs.Ports.Calls.{freed_buffers};
ghost use Rattle.xinu_model.specs.Semaphores.Counts.{count_of, most_tokens};
ghost use Rattle.xinu_model.specs.Sound.Pools.{ArePools};
ghost use Rattle.xinu_model.specs.Sound.Tables.{IsSoundTables};
ghost use Rattle.xinu_model.specs.Tables.{semaphore_at};

use crate::buffers::{first_buffer, holder};
use reference_state::{Answer, Machine};
use xinu_base::{NoMemory, PoolId, Rest, SYSERR, Sem};

/// Call 29: a buffer of the pool of a word, for which the caller waits; its address. Refused if the pool isn't made.
pub fn getbuf(m: &mut Machine, word: u32) -> Result<Answer, NoMemory>
    requires start { IsStart m.old }
    requires pools { ArePools m.old.state.tables m.old.state.parts.pools }
    ensures getbuf { IfOk result (λ a. came_to m.new a ≡ model.getbuf word m.old.state) }
{
    let Some(i) = PoolId::from_word(word) else {
        return Ok(Answer::Returns(SYSERR));
    };
    let Some(sem) = semaphore_of(m, i) else {
        return Ok(Answer::Returns(SYSERR));
    };
    if m.await_token(sem.index() as u32, Rest::GetBuf(i))? {
        Ok(take_buffer(m, i))
    } else {
        Ok(Answer::Waits)
    }
}

/// The caller goes on with the token that it waited for: it takes a buffer of pool `i`.
pub fn go_on_getbuf(m: &mut Machine, i: PoolId) -> Result<Answer, NoMemory>
    requires start { IsStart m.old }
    requires pools { ArePools m.old.state.tables m.old.state.parts.pools }
    ensures goes_on { IfOk result (λ a. came_to m.new a ≡ model.go_on_getbuf i m.old.state) }
{
    let message = m.held();
    m.goes_on(message)?;
    Ok(take_buffer(m, i))
}

/// Call 30: the buffer at an address is given back. Refused if none is held there.
pub fn freebuf(m: &mut Machine, a: u32) -> Result<Answer, NoMemory>
    requires start { IsStart m.old }
    requires pools { ArePools m.old.state.tables m.old.state.parts.pools }
    ensures freebuf { IfOk result (λ r. came_to m.new r ≡ model.freebuf a m.old.state) }
{
    let Some(i) = holder_of(m, a) else {
        return Ok(Answer::Returns(SYSERR));
    };
    put_back(m, a, i)?;
    Ok(Answer::Returns(0))
}

/// The buffers at these addresses are given back, one after another. An address at which none is held is passed over.
pub(crate) fn free_buffers(m: &mut Machine, addresses: &[u32]) -> Result<(), NoMemory>
    requires sound { IsSoundTables m.old.state.tables }
    requires pools { ArePools m.old.state.tables m.old.state.parts.pools }
    ensures freed { IfOk result (λ _. m.new ≡ freed_buffers addresses.now m.old) }
{
    for a in addresses {
        free_buffer(m, *a)?;
    }
    Ok(())
}

// What is held at an address is given back; if it is no held buffer nothing is done.
fn free_buffer(m: &mut Machine, a: u32) -> Result<(), NoMemory>
    requires pools { ArePools m.old.state.tables m.old.state.parts.pools }
    ensures freed { IfOk result (λ _. m.new ≡ model.freed_buffer a m.old) }
{
    match holder_of(m, a) {
        None => Ok(()),
        Some(i) => put_back(m, a, i),
    }
}

// The caller takes the first free buffer of pool `i`, before which the pool's number is written; its address.
fn take_buffer(m: &mut Machine, i: PoolId) -> Answer
    requires start { IsStart m.old }
    requires own { HasOwnFree (pool_at m.old.state.parts.pools i) }
    ensures taken { came_to m.new result ≡ model.take_buffer i m.old.state }
{
    let Some(a) = first_free(m, i) else {
        return Answer::Returns(SYSERR);
    };
    write_number(m, a, i.index() as u32);
    drop_first(m, i);
    Answer::Returns(a as i32)
}

// The buffer at an address is free again, and the pool is signalled.
fn put_back(m: &mut Machine, a: u32, i: usize) -> Result<(), NoMemory>
    requires made { i < length m.old.state.parts.pools }
    requires room { int_lt (count_of (semaphore_at m.old.state.tables (pool_at m.old.state.parts.pools i).semaphore)) most_tokens ≡ true }
    ensures put { IfOk result (λ _. m.new ≡ model.put_back a i m.old) }
{
    let sem = m.pools[i].semaphore;
    add_free(m, a, i)?;
    m.signalled(sem.index() as u32)
}

// The semaphore of pool `i`, if it is made.
fn semaphore_of(m: &Machine, i: PoolId) -> Option<Sem>
    ensures semaphore { result ≡
        (if nat_lt i (length m.now.state.parts.pools) then Some (pool_at m.now.state.parts.pools i).semaphore else None) }
{
    match m.pools.get(i.index()) {
        Some(pool) => Some(pool.semaphore),
        None => None,
    }
}

// The pool of which an address is a held buffer. Its semaphore has fewer tokens than the greatest count.
fn holder_of(m: &Machine, a: u32) -> Option<usize>
    requires pools { ArePools m.now.state.tables m.now.state.parts.pools }
    ensures holder { result ≡ holder a m.now.state.parts.pools }
    ensures made { IfSome result (λ i. i < length m.now.state.parts.pools) }
    ensures room { IfSome result (λ i.
        int_lt (count_of (semaphore_at m.now.state.tables (pool_at m.now.state.parts.pools i).semaphore)) most_tokens ≡ true) }
{
    holder(a, &m.pools)
}

// The first free buffer of pool `i`, which is in RAM as all of the pool's.
fn first_free(m: &Machine, i: PoolId) -> Option<u32>
    requires own { HasOwnFree (pool_at m.now.state.parts.pools i) }
    ensures first { MatchOption result ((pool_at m.now.state.parts.pools i).free ≡ [])
        (λ a. (pool_at m.now.state.parts.pools i).free ≡ a ∷ drop 1 (pool_at m.now.state.parts.pools i).free) }
    ensures within { IfSome result (λ a. a ≤ 1048576) }
{
    match m.pools.get(i.index()) {
        Some(pool) => first_buffer(pool),
        None => None,
    }
}

// The first free buffer of pool `i` is taken.
fn drop_first(m: &mut Machine, i: PoolId)
    requires some { 0 < length (pool_at m.old.state.parts.pools i).free }
    ensures dropped { m.new ≡ record m.old {
      state = record m.old.state {
        parts = record m.old.state.parts {
          pools =
              slice_set m.old.state.parts.pools i (record (pool_at m.old.state.parts.pools i) { free = drop 1 (pool_at m.old.state.parts.pools i).free });
        };
      };
    } }
{
    m.pools[i.index()].free.remove(0);
}

// The buffer at an address is the first free one of pool `i`.
fn add_free(m: &mut Machine, a: u32, i: usize) -> Result<(), NoMemory>
    requires made { i < length m.old.state.parts.pools }
    ensures added { IfOk result (λ _. m.new ≡ record m.old {
      state = record m.old.state {
        parts = record m.old.state.parts {
          pools =
              slice_set m.old.state.parts.pools i (with_free a (pool_at m.old.state.parts.pools i));
        };
      };
    }) }
{
    m.pools[i].free.insert(0, a).map_err(|_| NoMemory)
}

// A pool's number is written into the word before an address.
fn write_number(m: &mut Machine, a: u32, n: u32)
    requires within { a ≤ 1048576 }
    ensures written { m.new ≡ record m.old { state = record m.old.state { memory = with_number m.old.state.memory (a - 4) 4 n } } }
{
    let _ = m.memory.copy_in(a.saturating_sub(4), &n.to_le_bytes());
}
