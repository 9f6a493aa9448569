//! The heap and the stacks: free blocks of cells in a list by address, which merge as they are given back (book, chapter 9).
//!
//! A clause sees a `Heap` as the abstract machine's: where it begins, and which of its cells of eight bytes are free. Each call is an
//! equation with the machine's own `take_memory`, `take_stack`, `free_memory` and `free_stack`. Sizes and addresses are unsigned, and
//! no sum of them wraps.
//!
//! The code keeps the free blocks alone: by place, none empty, and a taken cell between any two (`AreBlocks` in `specs/Blocks.antt`,
//! `cells_of` what they stand for). So n cells have at most (n + 1) / 2 blocks, and the n / 2 + 1 records that `new` takes are enough:
//! no other call but `clone` takes memory. Each call costs time in proportion to the number of free blocks. `proofs/Rest.antt` has the laws for a
//! loop that takes one block after another by `block_from`. The crate depends on `xinu_base` and on the definitions of `xinu_model`.
//!
//! # Example
//!
//! A heap of 64 bytes at address 0. It manages numbers: the memory behind them can be an array, a device or another machine's RAM. The
//! three addresses are 0, 24 and `None`, since no free block has 48 bytes; given back, the first 24 bytes are one free block again.
//!
//!     use freelist_memory::Heap;
//!     use std::io;
//!
//!     fn main(rt: HostRuntime) -> io::Result<()> {
//!         let Ok(mut heap) = Heap::new(rt.alloc(), 0, 64) else {
//!             return println!(rt; "no memory");
//!         };
//!         let first = heap.getmem(20);
//!         let second = heap.getmem(24);
//!         let third = heap.getmem(48);
//!         println!(rt; "{first:?} {second:?} {third:?}")?;
//!         let given = heap.freemem(0, 20);
//!         let free = heap.free_total();
//!         println!(rt; "{given} {free}")
//!     }
#![tactic(auto)]

mod blocks;
mod heap;
mod list;

pub use heap::Heap;
