//! A pool of records of one size.

ghost use Rattle.std.specs.Prelude.{◌≡◌, ◌==◌, ◌≤◌, ◌⊎◌, ◌++◌, ◌∷◌, [], None, not, length, IfNone, IfSome};
ghost use Rattle.std.specs.List.{All, filter};
ghost use Rattle.uses_heap.specs.Pools.{AreApart};
ghost use Rattle.xinu_model.specs.Heap.Cells.{take_memory};

use arrayvec::ArrayVec;
use freelist_memory::Heap;
use std::alloc::Global;
use std::marker::Model;

/// How many bytes the heap has.
const BYTES: u32 = 128;
/// How many bytes a record has.
pub(crate) const RECORD: u32 = 24;

/// Records of 24 bytes in a heap of 128. A contract sees a pool as its heap, and the addresses of those that are taken, the oldest
/// first (`Records` in `specs/Pools.antt`).
///
/// The invariant is what the pool keeps true at every moment: each byte of a record on the list is taken from the heap, and no two records
/// share one (`IsPool` in `specs/Taken.antt`). A caller never has to know it.
#[derive(Drop)]
pub(crate) struct Pool {
    heap: Heap,
    taken: ArrayVec<u32, 8>,
}

impl Model for Pool {
    ghost use Rattle.uses_heap.specs.Pools.{Records};
    ghost use Rattle.uses_heap.specs.Taken.{IsPool};

    ghost Value = { Records };

    ghost view = { λ p. record { heap = p.heap; addresses = p.taken.items } };

    ghost invariant = { IsPool };
}

impl Pool {
    /// A pool of which nothing is taken. `None` if there is no memory.
    pub(crate) fn new(alloc: Global) -> Option<Pool>
        ensures empty { IfSome result (λ p. p.addresses ≡ []) }
    {
        let Ok(heap) = Heap::new(alloc, 0, BYTES) else {
            return None;
        };
        Some(Pool {
            heap,
            taken: ArrayVec::new(),
        })
    }

    /// Takes a record and answers its address: it shares no byte with one that is taken. `None`, and nothing changes, if there is no room.
    pub(crate) fn take(&mut self) -> Option<u32>
        ensures apart { IfSome result (λ a. All (AreApart a) self.old.addresses) }
        ensures taken { IfSome result (λ a. self.new.addresses ≡ self.old.addresses ++ a ∷ []) }
        ensures stays { IfNone result (self.new ≡ self.old) }
        ensures full { IfNone result ((8 ≤ length self.old.addresses) ⊎ (take_memory 24 self.old.heap ≡ None)) }
    {
        if self.taken.is_full() {
            return None;
        }
        let address = self.heap.getmem(RECORD)?;
        self.taken.push(address);
        Some(address)
    }

    /// Gives a record back, if it is taken.
    pub(crate) fn give(&mut self, address: u32)
        ensures given { self.new.addresses ≡ filter (λ b. not (b == address)) self.old.addresses }
    {
        if self.taken.contains(&address) {
            self.heap.freemem(address, RECORD);
        }
        leave_out(&mut self.taken, address);
    }
}

// Takes an address off a list.
fn leave_out(list: &mut ArrayVec<u32, 8>, address: u32)
    ensures others { list.new.items ≡ filter (λ b. not (b == address)) list.old.items }
{
    list.retain(|other| *other != address);
}
