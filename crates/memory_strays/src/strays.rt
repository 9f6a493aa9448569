//! The first stray of each kind in a run.

ghost use Rattle.std.specs.Prelude.{◌≡◌, ◌/◌, IfOk, map, slice_index_or, slice_set, true, false};
ghost use Rattle.memory_strays.specs.Looks as looks;
ghost use Rattle.memory_strays.specs.Strays as specs;
ghost use Rattle.xinu_model.specs.Machine.{current_hart};
ghost use Rattle.xinu_model.specs.Sound.State.{IsSound};
ghost use Rattle.xinu_model.specs.Tables.{process_at};

use crate::looks::{Store, current_hart, executes, is_free, stack_low, stack_owner, store_in};
use crate::near_null::{is_near_null, lie_near_null};
use kernel_state::KernelState;
use std::alloc::{AllocError, Global};
use std::marker::Model;
use xinu_base::Pid;

/// How many words RAM has.
const WORDS: usize = 262_144;

/// A step after which memory isn't what a program means it to be.
#[derive(Clone, Copy)]
pub struct Stray {
    /// How many events were taken before it.
    pub taken: u32,
    /// Whose step it is.
    pub process: Pid,
    /// The address of its instruction.
    pub pc: u32,
    /// The stack pointer, or the address of the store.
    pub address: u32,
    /// How many bytes the stack pointer is below the stack, or how many are stored.
    pub bytes: u64,
    /// In whose stack the store is; else the process itself.
    pub owner: Pid,
}

/// The first stray of each kind so far, over which words of RAM a step executed, and whether no image lies near null.
#[derive(Drop)]
pub struct Strays {
    executed: Vec<bool>,
    is_clear: bool,
    below: Option<Stray>,
    stack: Option<Stray>,
    code: Option<Stray>,
    free: Option<Stray>,
    null: Option<Stray>,
}

impl Model for Strays {
    ghost use Rattle.memory_strays.specs.Strays.{Noted};

    ghost Value = { Noted };

    ghost view = { λ x. record { executed = x.executed.items; is_clear = x.is_clear; below = x.below; stack = x.stack; code = x.code; free = x.free; null = x.null } };
}

impl Strays {
    /// Of a run with the images in these files: nothing is noted yet.
    ///
    /// # Errors
    /// Out of memory.
    #[tactic(auto, unfolding(crate::specs::Strays::nothing_noted))]
    pub fn new(alloc: Global, files: &[Vec<u8>]) -> Result<Strays, AllocError>
        ensures none { IfOk result (λ x. x ≡ specs.nothing_noted (map (λ v. v.items) files.now)) }
    {
        let executed = vec![in alloc; false; WORDS]?;
        Ok(Strays {
            executed,
            is_clear: !lie_near_null(files),
            below: None,
            stack: None,
            code: None,
            free: None,
            null: None,
        })
    }

    /// The first step ahead of which the stack pointer of its process was below that process's stack, if there is one.
    pub fn below(&self) -> Option<Stray>
        ensures below { result ≡ self.now.below }
    {
        self.below
    }

    /// The first store into the stack of another process, if there is one.
    pub fn stack(&self) -> Option<Stray>
        ensures stack { result ≡ self.now.stack }
    {
        self.stack
    }

    /// The first store over a word that a step executed before, if there is one.
    pub fn code(&self) -> Option<Stray>
        ensures code { result ≡ self.now.code }
    {
        self.code
    }

    /// The first store into a free block of the heap, if there is one.
    pub fn free(&self) -> Option<Stray>
        ensures free { result ≡ self.now.free }
    {
        self.free
    }

    /// The first store near null, at one of the addresses 0 to 15, if there is one. None is noted if an image has one of these addresses.
    pub fn null(&self) -> Option<Stray>
        ensures null { result ≡ self.now.null }
    {
        self.null
    }

    /// Notes the next step of a sound state to which so many events led, if it is the first of a kind. It takes no memory.
    pub fn note(&mut self, k: &KernelState, taken: u32)
        requires sound { IsSound k.now.call.state }
        ensures noted { self.new ≡ specs.note taken k.now.call.state self.old }
    {
        if !executes(k) {
            return;
        }
        let store = store_in(k);
        self.below = first_of(self.below, below_stack(k, taken));
        self.stack = first_of(self.stack, into_stack(k, taken, store));
        self.code = first_of(self.code, self.into_code(k, taken, store));
        if self.free.is_none() {
            self.free = into_free(k, taken, store);
        }
        self.null = first_of(self.null, self.into_null(k, taken, store));
        let place = current_hart(k).pc as usize / 4;
        if place < self.executed.len() {
            self.executed[place] = true;
        }
    }

    // A store into a word over which a step executed before.
    fn into_code(&self, k: &KernelState, taken: u32, store: Option<Store>) -> Option<Stray>
        requires sound { IsSound k.now.call.state }
        ensures code { result ≡ specs.into_code taken k.now.call.state self.now.executed store }
    {
        let Store { address, width } = store?;
        if self.was_executed(address / 4) {
            Some(strayed(k, taken, address, width as u64, k.tables.current()))
        } else {
            None
        }
    }

    // A store near null, unless an image lies there.
    fn into_null(&self, k: &KernelState, taken: u32, store: Option<Store>) -> Option<Stray>
        requires sound { IsSound k.now.call.state }
        ensures null { result ≡ specs.into_null taken k.now.call.state self.now.is_clear store }
    {
        let Store { address, width } = store?;
        if self.is_clear && is_near_null(address) {
            Some(strayed(k, taken, address, width as u64, k.tables.current()))
        } else {
            None
        }
    }

    // Whether a step executed over a word.
    fn was_executed(&self, word: u32) -> bool
        ensures was { result ≡ slice_index_or self.now.executed word false }
    {
        match self.executed.get(word as usize) {
            Some(was) => *was,
            None => false,
        }
    }
}

// A stray in the next step.
fn strayed(k: &KernelState, taken: u32, address: u32, bytes: u64, owner: Pid) -> Stray
    requires sound { IsSound k.now.call.state }
    ensures strayed { result ≡ specs.strayed taken k.now.call.state address bytes owner }
{
    Stray {
        taken,
        process: k.tables.current(),
        pc: current_hart(k).pc,
        address,
        bytes,
        owner,
    }
}

// The stack pointer of the process that runs is below its stack.
fn below_stack(k: &KernelState, taken: u32) -> Option<Stray>
    requires sound { IsSound k.now.call.state }
    ensures below { result ≡ specs.below_stack taken k.now.call.state }
{
    let pointer = current_hart(k).regs[2];
    let process = k.tables.current();
    let low = stack_low(k.tables.process(process));
    if (pointer as u64) < low {
        let bytes = low - pointer as u64;
        Some(strayed(k, taken, pointer, bytes, process))
    } else {
        None
    }
}

// A store into the stack of another process.
fn into_stack(k: &KernelState, taken: u32, store: Option<Store>) -> Option<Stray>
    requires sound { IsSound k.now.call.state }
    ensures stack { result ≡ specs.into_stack taken k.now.call.state store }
{
    let Store { address, width } = store?;
    let owner = stack_owner(&k.tables, address)?;
    if owner.index() == k.tables.current().index() {
        None
    } else {
        Some(strayed(k, taken, address, width as u64, owner))
    }
}

// A store into memory that is free.
fn into_free(k: &KernelState, taken: u32, store: Option<Store>) -> Option<Stray>
    requires sound { IsSound k.now.call.state }
    ensures free { result ≡ specs.into_free taken k.now.call.state store }
{
    let Store { address, width } = store?;
    if is_free(&k.heap, address) {
        Some(strayed(k, taken, address, width as u64, k.tables.current()))
    } else {
        None
    }
}

// The first one, if there is one, or else the next.
fn first_of(first: Option<Stray>, next: Option<Stray>) -> Option<Stray>
    ensures first { result ≡ specs.first_of first next }
{
    match first {
        Some(first) => Some(first),
        None => next,
    }
}
