//! The calls that processes made.

use kernel_state::KernelState;
use std::alloc::{AllocError, Global};
use xinu_base::{Call, Event, Pid};

/// The instruction that makes a call.
const ECALL: u32 = 0x73;

/// A call that a process makes.
#[derive(Clone, Copy)]
pub(crate) struct Asking {
    /// Which process.
    pub(crate) process: Pid,
    /// What it asks for.
    pub(crate) call: Call,
}

/// The call that is made in the event that comes next, if one is.
pub(crate) fn call_ahead(k: &KernelState, event: Event) -> Option<Asking> {
    let process = k.tables.current();
    if !matches!(event, Event::Step) || process.index() == 0 || !k.tables.is_done() {
        return None;
    }
    if makes_call(k, k.harts[process.index()].pc) {
        Some(Asking {
            process,
            call: k.call_of(),
        })
    } else {
        None
    }
}

/// Whether the instruction at an address makes a call.
pub(crate) fn makes_call(k: &KernelState, address: u32) -> bool {
    match k.ram.read32(address) {
        Some(word) => word == ECALL,
        None => false,
    }
}

// A call that was made.
#[derive(Clone, Copy)]
struct Made {
    event: u32,
    process: u8,
    number: u32,
}

/// The calls that were made, in their order.
#[derive(Drop)]
pub(crate) struct Calls {
    made: Vec<Made>,
}

impl Calls {
    /// None so far.
    pub(crate) fn new(alloc: Global) -> Calls {
        Calls {
            made: Vec::new(alloc),
        }
    }

    /// Notes a call that was made in an event.
    ///
    /// # Errors
    /// Out of memory.
    pub(crate) fn note(&mut self, event: u32, asking: &Asking) -> Result<(), AllocError> {
        self.made.push(Made {
            event,
            process: asking.process.index() as u8,
            number: asking.call.number,
        })?;
        Ok(())
    }

    /// The number of the call in which a process was in an event: the last that it made up to then. 0 if it made none.
    pub(crate) fn number_in(&self, process: u8, event: u32) -> u32 {
        let mut number = 0;
        for made in &self.made {
            if made.process == process && made.event <= event {
                number = made.number;
            }
        }
        number
    }
}
