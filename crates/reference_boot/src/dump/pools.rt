//! The lines of the buffer pools.

ghost use Rattle.std.specs.Prelude.{ℕ, ◌≡◌, ◌<◌, ◌≤◌, ◌+◌, ◌*◌, ◌++◌, IfOk, length, map, cond, not};
ghost use Rattle.xinu_base.specs.declared.lines.TranscriptLine.TheVariants as line;
ghost use Rattle.xinu_model.specs.Pools.Buffers as pools;
ghost use Rattle.xinu_model.specs.Text as model;

use reference_state::BufferPool;
use reference_tables::push;
use xinu_base::{NoMemory, PoolId, TranscriptLine};

/// The lines of the pools, each before its free buffers.
pub(crate) fn push_pools(
    lines: &mut Vec<TranscriptLine>,
    list: &[BufferPool],
) -> Result<(), NoMemory>
    requires many { length list.now ≤ 20 }
    requires few { (i : ℕ) → length (pools.pool_at list.now i).free ≤ (pools.pool_at list.now i).number }
    ensures pushed { IfOk result (λ _. lines.new.items ≡ lines.old.items ++ model.pool_lines 0 list.now) }
{
    for (number, pool) in list.iter().enumerate() {
        push_pool(lines, PoolId::at(number), pool)?;
    }
    Ok(())
}

// The lines of a pool and its free buffers.
fn push_pool(lines: &mut Vec<TranscriptLine>, i: PoolId, pool: &BufferPool) -> Result<(), NoMemory>
    requires few { length pool.now.free ≤ pool.now.number }
    ensures pushed { IfOk result (λ _. lines.new.items ≡ lines.old.items ++ model.pool_line i pool.now) }
{
    let free = pool.free.len() as u32;
    let line = TranscriptLine::Pool {
        pool: i,
        size: pool.size,
        free,
        held: held_in(pool),
    };
    push(lines, line)?;
    push_buffers(lines, i, &pool.free)?;
    Ok(())
}

// The lines of the free buffers of a pool.
fn push_buffers(lines: &mut Vec<TranscriptLine>, i: PoolId, free: &[u32]) -> Result<(), NoMemory>
    ensures pushed { IfOk result (λ _. lines.new.items ≡ lines.old.items ++ map (line.Buffer i) free.now) }
{
    for a in free {
        push(lines, TranscriptLine::Buffer(i, *a))?;
    }
    Ok(())
}

// How many buffers of a pool are held.
fn held_in(pool: &BufferPool) -> u32
    ensures held { result ≡ pools.held_in pool.now }
{
    let mut held = 0;
    for i in 0..pool.number {
        held += one_if_held(pool, i);
    }
    held
}

// 1 if a buffer of a pool is held, else 0.
fn one_if_held(pool: &BufferPool, i: u32) -> u32
    requires within { i < pool.now.number }
    ensures one { result ≡ cond (not (pools.is_in (pool.now.base + 4 + i * (pool.now.size + 4)) pool.now.free)) 1 0 }
    ensures most { result ≤ 1 }
{
    if is_in(buffer_at(pool, i), &pool.free) {
        0
    } else {
        1
    }
}

// The address of a buffer of a pool.
fn buffer_at(pool: &BufferPool, i: u32) -> u32
    requires within { i < pool.now.number }
    ensures address { result ≡ pool.now.base + 4 + i * (pool.now.size + 4) }
{
    pool.base + 4 + i * (pool.size + 4)
}

// Whether a number is in a list.
fn is_in(a: u32, list: &[u32]) -> bool
    ensures found { result ≡ pools.is_in a list.now }
{
    for b in list {
        if a == *b {
            return true;
        }
    }
    false
}
