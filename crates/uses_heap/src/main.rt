//! Records in a heap: what the pool hands out is in nobody else's hands.
//!
//! The layer is `freelist_memory`, the kernel's heap. It manages numbers and touches no memory, so the bytes behind its addresses can be an
//! array, a device or another machine's RAM. Its contract is in the abstract machine's words, `take_memory` and `free_memory`; what the
//! pool promises of them, that no two records share a byte, is shown in the hundred lines of `proofs/Records.antt`.
#![tactic(auto)]

mod pool;

use pool::{Pool, RECORD};
use std::io;

// Five records fit into 128 bytes. The second is given back, and its place is the next that is taken.
fn main(rt: HostRuntime) -> io::Result<()> {
    let Some(mut pool) = Pool::new(rt.alloc()) else {
        return println!(rt; "no memory");
    };
    for _ in 0..6 {
        match pool.take() {
            Some(address) => println!(rt; "taken {address}")?,
            None => println!(rt; "full")?,
        }
    }
    pool.give(RECORD);
    println!(rt; "given {RECORD}")?;
    match pool.take() {
        Some(address) => println!(rt; "taken {address}"),
        None => println!(rt; "full"),
    }
}
