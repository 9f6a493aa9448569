//! The heap: memory and stacks that processes take and give back (book, chapter 9, `getmem.c`, `freemem.c`, `getstk.c`).
//!
//! It depends on the free list, whose cells it gives addresses. It keeps true that the heap lies in RAM, from a multiple of 8 on.

ghost use Rattle.std.specs.Prelude.{◌≡◌, ◌↔◌, IsTrue, ◌+◌, ◌-◌, ◌*◌, ◌/◌, ◌%◌, ◌<◌, ◌≤◌, true, replicate, Some, None, IfOk, IfNone, IfSome, if◌then◌else◌, count_by, find, nat_le, option_map, unwrap_or};
ghost use Rattle.xinu_model.specs.Heap.Cells as heap;

use crate::list::FreeList;
use std::alloc::Global;
use std::marker::Model;
use xinu_base::NoMemory;

/// The heap. Its records of free blocks are outside of the machine's RAM.
#[derive(Clone)]
pub struct Heap {
    // The address of its first cell.
    low: u32,
    // Which cells are free.
    cells: FreeList,
}

impl Drop for Heap {
    fn drop(self) {
        let Heap {
            low: _low,
            cells: _cells,
        } = self;
    }
}

impl Model for Heap {
    ghost use Rattle.xinu_model.specs.Heap.Cells as heap;

    ghost Value = { heap.Heap };

    ghost use Rattle.freelist_memory.specs.Heaps.{IsHeap};

    ghost view = { λ h. record { low = h.low; cells = h.cells } };

    ghost invariant = { IsHeap };
}

impl Heap {
    /// The heap from address `low` up to `high`, all of it free. Both are multiples of 8, `low` is at most `high`, and `high` is at most
    /// 1048576, the size of RAM. This call and `clone` alone take memory, for at most `(high - low) / 16 + 1` records.
    ///
    /// # Errors
    ///
    /// `NoMemory` if there is no memory for the records.
    pub fn new(alloc: Global, low: u32, high: u32) -> Result<Self, NoMemory>
        requires low_aligned { low % 8 ≡ 0 }
        requires high_aligned { high % 8 ≡ 0 }
        requires order { low ≤ high }
        requires in_ram { high ≤ 1048576 }
        ensures free { IfOk result (λ h. h ≡ record { low = low; cells = replicate ((high - low) / 8) true }) }
    {
        let cells = FreeList::new(alloc, (high - low) / 8)?;
        Ok(Heap { low, cells })
    }

    /// Whether another heap begins at the same address and has the same cells free.
    pub fn equals(&self, other: &Self) -> bool
        ensures equal { IsTrue result ↔ (self.now ≡ other.now) }
    {
        self.low == other.low && self.cells.equals(&other.cells)
    }

    /// The address that `getmem` of `n` bytes answers if it is called next, `None` if and only if it refuses.
    pub fn place_for(&self, n: u32) -> Option<u32>
        ensures place { result ≡ option_map (λ g. g.address) (heap.take_memory n self.now) }
    {
        if n == 0 {
            return None;
        }
        let Some(first) = self.cells.find_low(cells_for(n)) else {
            return None;
        };
        Some(self.low + 8 * first)
    }

    /// Takes `n` bytes, rounded up to a multiple of 8, from the lowest free block that is large enough, and answers their address,
    /// a multiple of 8; they lie in RAM. `None`, and nothing changes, if and only if `n` is 0 or there is no such block.
    pub fn getmem(&mut self, n: u32) -> Option<u32>
        ensures grants { IfSome result (λ a. heap.take_memory n self.old ≡ Some (record { address = a; heap = self.new })) }
        ensures refuses { IfNone result (heap.take_memory n self.old ≡ None) }
        ensures stays { IfNone result (self.new ≡ self.old) }
        ensures aligned { IfSome result (λ a. a % 8 ≡ 0) }
        ensures in_ram { IfSome result (λ a. a + 8 * heap.cells_for n ≤ 1048576) }
    {
        if n == 0 {
            return None;
        }
        let Some(first) = self.cells.take_low(cells_for(n)) else {
            return None;
        };
        Some(self.low + 8 * first)
    }

    /// Takes a stack of `n` bytes, rounded up to a multiple of 8, from the high end of the highest free block that is large enough,
    /// and answers the address of its highest word, which lies in RAM. `None`, and nothing changes, if and only if `n` is 0 or there is no
    /// such block.
    pub fn getstk(&mut self, n: u32) -> Option<u32>
        ensures grants { IfSome result (λ a. heap.take_stack n self.old ≡ Some (record { top = a; heap = self.new })) }
        ensures refuses { IfNone result (heap.take_stack n self.old ≡ None) }
        ensures stays { IfNone result (self.new ≡ self.old) }
        ensures aligned { IfSome result (λ a. a % 8 ≡ 4) }
        ensures in_ram { IfSome result (λ a. a + 4 ≤ 1048576) }
    {
        if n == 0 {
            return None;
        }
        let count = cells_for(n);
        let Some(first) = self.cells.take_high(count) else {
            return None;
        };
        Some(self.low + 8 * (first + count) - 4)
    }

    /// Gives back `n` bytes, rounded up to a multiple of 8, from address `a` on. They become a free block, or a part of the free
    /// blocks that they touch. False, and nothing changes, if and only if `n` is 0, `a` isn't a multiple of 8, or the range isn't
    /// in the heap or meets a free block.
    pub fn freemem(&mut self, a: u32, n: u32) -> bool
        ensures frees { heap.free_memory a n self.old ≡ (if result then Some self.new else None) }
        ensures stays { self.new ≡ unwrap_or (heap.free_memory a n self.old) self.old }
    {
        if n == 0 || a % 8 != 0 || a < self.low {
            return false;
        }
        let first = (a - self.low) / 8;
        self.cells.give(first, cells_for(n))
    }

    /// Gives back a stack of `n` bytes, rounded up to a multiple of 8, whose highest word is at `a`. False, and nothing changes, if
    /// and only if the stack would begin below address 0, or `freemem` of its bytes is false.
    pub fn freestk(&mut self, a: u32, n: u32) -> bool
        ensures frees { heap.free_stack a n self.old ≡ (if result then Some self.new else None) }
        ensures stays { self.new ≡ unwrap_or (heap.free_stack a n self.old) self.old }
    {
        if n == 0 {
            return false;
        }
        let bytes = 8 * u64::from(cells_for(n));
        let end = u64::from(a) + 4;
        if end < bytes {
            return false;
        }
        let first = (end - bytes) as u32;
        self.freemem(first, n)
    }

    /// How many bytes are free.
    pub fn free_total(&self) -> u32
        ensures total { result ≡ 8 * count_by (λ c. c) self.now.cells }
    {
        8 * self.cells.total()
    }

    /// The address and the bytes of the first free block at address `a` or above, which isn't empty and lies in RAM. `None` if and only
    /// if there is none.
    pub fn block_from(&self, a: u32) -> Option<(u32, u32)>
        ensures first { result ≡ find (λ b. nat_le a b.0) (heap.free_blocks self.now) }
        ensures some { IfSome result (λ b. 0 < b.1) }
        ensures in_ram { IfSome result (λ b. b.0 + b.1 ≤ 1048576) }
    {
        let cell = a.saturating_sub(self.low).div_ceil(8);
        let Some(block) = self.cells.block_from(cell) else {
            return None;
        };
        Some((self.low + 8 * block.first, 8 * block.count))
    }
}

// How many cells hold n bytes.
fn cells_for(n: u32) -> u32
    ensures cells { result ≡ heap.cells_for n }
{
    n.div_ceil(8)
}
