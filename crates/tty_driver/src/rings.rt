//! Rings: copies of them, and whether two hold the same.

ghost use Rattle.std.specs.Prelude.{◌≡◌, ◌↔◌, IsTrue, IfOk};

use circular_buffer::HeapCircularBuffer;
use std::alloc::AllocError;
use xinu_base::Item;

/// A copy of a ring.
///
/// # Errors
///
/// Out of memory.
pub fn copy_of<T: Copy>(ring: &HeapCircularBuffer<T>) -> Result<HeapCircularBuffer<T>, AllocError>
    ensures copy { IfOk result (λ copy. copy ≡ ring.now) }
{
    let mut copy = HeapCircularBuffer::with_capacity(*ring.allocator(), ring.capacity())?;
    let (front, back) = ring.as_slices();
    copy.extend_from_slice(front);
    copy.extend_from_slice(back);
    Ok(copy)
}

/// Whether two rings of bytes hold the same.
pub fn are_same(ring: &HeapCircularBuffer<u8>, other: &HeapCircularBuffer<u8>) -> bool
    ensures equal { IsTrue result ↔ (ring.now.items ≡ other.now.items) }
{
    if ring.len() != other.len() {
        return false;
    }
    for k in 0..ring.len() {
        if ring.get(k) != other.get(k) {
            return false;
        }
    }
    true
}

/// Whether two rings of items hold the same.
pub fn are_same_items(ring: &HeapCircularBuffer<Item>, other: &HeapCircularBuffer<Item>) -> bool
    ensures equal { IsTrue result ↔ (ring.now.items ≡ other.now.items) }
{
    if ring.len() != other.len() {
        return false;
    }
    for k in 0..ring.len() {
        let (Some(item), Some(there)) = (ring.get(k), other.get(k)) else {
            return false;
        };
        if !is_same(*item, *there) {
            return false;
        }
    }
    true
}

// Whether two items are the same.
fn is_same(item: Item, other: Item) -> bool
    ensures equal { IsTrue result ↔ (item ≡ other) }
{
    item == other
}
