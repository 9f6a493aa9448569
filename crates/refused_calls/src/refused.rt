//! A refused call, and the refused calls of a run so far.

ghost use Rattle.std.specs.Prelude.{◌≡◌, ◌++◌, [], OnOk, Some};
ghost use Rattle.refused_calls.specs.Refusals as specs;
ghost use Rattle.xinu_model.specs.Events.{call_of};
ghost use Rattle.xinu_model.specs.Sound.State.{IsSound};

use crate::steps::push_step;
use crate::waiters::push_failed;
use kernel_state::KernelState;
use refusal_reasons::Reason;
use rv_hart::Hart;
use std::alloc::{AllocError, Global};
use std::marker::Model;
use xinu_base::{Call, Event, Pid};

/// A call that is refused.
#[derive(Clone, Copy)]
pub struct Refused {
    /// How many events were taken before that in which it is refused.
    pub taken: u32,
    /// Who made it.
    pub process: Pid,
    /// The address of the instruction that made it.
    pub pc: u32,
    /// Its number and its arguments.
    pub call: Call,
    /// Why it is refused.
    pub reason: Reason,
}

/// The refused calls of a run so far, in order.
#[derive(Drop)]
pub struct RefusedCalls {
    calls: Vec<Refused>,
}

impl Model for RefusedCalls {
    ghost use Rattle.std.specs.Prelude.{List};
    ghost use Rattle.refused_calls.specs.declared.refused.Refused.{Refused};

    ghost Value = { List Refused };

    ghost view = { λ x. x.calls.items };
}

impl RefusedCalls {
    /// None so far.
    pub fn new(alloc: Global) -> RefusedCalls
        ensures none { result ≡ [] }
    {
        RefusedCalls {
            calls: Vec::new(alloc),
        }
    }

    /// The refused calls so far.
    pub fn as_slice(&self) -> &[Refused]
        ensures calls { result.now ≡ self.now }
    {
        self.calls.as_slice()
    }

    /// Adds the calls that are refused in the event that comes next, after so many others, by the state ahead of it, which is sound.
    ///
    /// # Errors
    /// Out of memory.
    pub fn note(&mut self, event: Event, k: &KernelState, taken: u32) -> Result<(), AllocError>
        requires sound { IsSound k.now.call.state }
        ensures noted { OnOk result (self.new ≡ self.old ++ specs.refused_in (Some event) taken k.now.call.state) }
    {
        match event {
            Event::Step => push_step(&mut self.calls, k, taken),
            Event::Fail0 => push_failed(&mut self.calls, k, taken),
            _ => Ok(()),
        }
    }
}

/// The call in the registers of a process, which is refused in an event to which so many led, as it is made or after its caller waited.
pub(crate) fn refusal(k: &KernelState, taken: u32, p: Pid, waited: bool, reason: Reason) -> Refused
    requires sound { IsSound k.now.call.state }
    ensures refused { result ≡ specs.refused taken k.now.call.state p waited reason }
{
    let hart = &k.harts[p.index()];
    Refused {
        taken,
        process: p,
        pc: place_of(hart, waited),
        call: call_of(hart),
        reason,
    }
}

// The address of the instruction that makes a call, or that made it if its caller waited.
fn place_of(hart: &Hart, waited: bool) -> u32
    ensures place { result ≡ specs.place_of hart.now waited }
{
    if waited {
        hart.pc.wrapping_sub(4)
    } else {
        hart.pc
    }
}

// The call that registers ask for.
fn call_of(hart: &Hart) -> Call
    ensures call { result ≡ call_of hart.now }
{
    let regs = &hart.regs;
    Call {
        number: regs[17],
        args: [regs[10], regs[11], regs[12], regs[13], regs[14], regs[15]],
    }
}
