//! To what a byte belongs.

use crate::history::History;
use buffer_pools::Pools;
use kernel_state::KernelState;
use printed_runs::Text;
use told_places::{Place, nearest_function, nearest_variable, shown};
use xinu_base::{PoolId, call_name};

/// How many bytes after a label of assembler are told by it at most.
const NEAR: u32 = 4096;

/// What an owner of bytes is.
#[derive(Clone, Copy)]
pub(crate) enum Sort {
    /// A variable of a program.
    Variable,
    /// The stack of the process at a place.
    Stack(usize),
    /// A buffer of the pool of a number.
    Buffer(usize),
    /// The block of the heap at a place.
    Block(usize),
    /// None of them: a word of RAM.
    Word,
}

/// An owner of bytes.
#[derive(Clone, Copy)]
pub(crate) struct Owner {
    pub(crate) sort: Sort,
    /// The address at which it begins.
    low: u32,
}

impl Owner {
    /// Whether it is the same as another one.
    pub(crate) fn is(&self, other: &Owner) -> bool {
        let same = match (self.sort, other.sort) {
            (Sort::Variable, Sort::Variable) | (Sort::Word, Sort::Word) => true,
            (Sort::Stack(one), Sort::Stack(two))
            | (Sort::Buffer(one), Sort::Buffer(two))
            | (Sort::Block(one), Sort::Block(two)) => one == two,
            _ => false,
        };
        same && self.low == other.low
    }
}

/// To what a byte belonged when an event came; if to nothing, to what it belonged before.
pub(crate) fn owner_of(
    byte: u32,
    event: u32,
    history: &History,
    k: &KernelState,
    files: &[Vec<u8>],
) -> Owner {
    if let Some(place) = nearest_variable(files, byte) {
        return Owner {
            sort: Sort::Variable,
            low: byte.saturating_sub(place.offset),
        };
    }
    if let Some(at) = history.lives.owner(byte, event) {
        return of_stack(at);
    }
    if let Some(at) = history.blocks.owner(byte, event) {
        return of_block(at);
    }
    if let Some(owner) = buffer_of(&k.pools, byte) {
        return owner;
    }
    if let Some(at) = history.lives.former_owner(byte) {
        return of_stack(at);
    }
    match history.blocks.former_owner(byte) {
        Some(at) => of_block(at),
        None => Owner {
            sort: Sort::Word,
            low: byte / 4 * 4,
        },
    }
}

// The stack of the process at a place.
fn of_stack(at: usize) -> Owner {
    Owner {
        sort: Sort::Stack(at),
        low: 0,
    }
}

// The block at a place.
fn of_block(at: usize) -> Owner {
    Owner {
        sort: Sort::Block(at),
        low: 0,
    }
}

// The buffer that has a byte, or the word in front of it.
fn buffer_of(pools: &Pools, byte: u32) -> Option<Owner> {
    for number in 0..20 {
        if number < pools.count() {
            let pool = PoolId::at(number);
            let (base, bytes) = pools.memory_of(pool);
            if base <= byte && byte < base.saturating_add(bytes) {
                let each = pools.size_of(pool).saturating_add(4);
                return Some(Owner {
                    sort: Sort::Buffer(number),
                    low: base.saturating_add((byte - base) / each * each),
                });
            }
        }
    }
    None
}

/// Adds an owner, and where in it a byte is.
pub(crate) fn add_owner(
    text: &mut Text,
    owner: &Owner,
    byte: u32,
    history: &History,
    files: &[Vec<u8>],
) {
    let sort = owner.sort;
    match sort {
        Sort::Variable | Sort::Word => add_named(text, owner, byte, files),
        Sort::Stack(at) => add_stack(text, at, byte, history),
        Sort::Buffer(pool) => {
            text.numbered(" on a buffer of pool ", pool as u64);
            text.put(",");
        }
        Sort::Block(at) => add_block(text, at, history),
    }
}

/// The name that a program gives to a byte of an owner, and how far the byte is from where it begins: a variable, or of a word that is none the
/// label of assembler before it.
pub(crate) fn name_of<'a>(owner: &Owner, byte: u32, files: &'a [Vec<u8>]) -> Option<Place<'a>> {
    let sort = owner.sort;
    match sort {
        Sort::Variable => nearest_variable(files, byte),
        Sort::Word => {
            let place = nearest_function(files, byte)?;
            if place.offset < NEAR {
                Some(place)
            } else {
                None
            }
        }
        _ => None,
    }
}

// Adds the name of a byte, and how far the byte is from where it begins.
fn add_named(text: &mut Text, owner: &Owner, byte: u32, files: &[Vec<u8>]) {
    if let Some(place) = name_of(owner, byte, files) {
        text.put(" on ");
        text.put(shown(place.name));
        if place.offset != 0 {
            text.numbered("+", place.offset as u64);
        }
        text.put(",");
    }
}

// Adds a stack, and how far below its top a byte is.
fn add_stack(text: &mut Text, at: usize, byte: u32, history: &History) {
    if let Some(life) = history.lives.at(at) {
        let below = life.end.saturating_sub(byte);
        text.put(" on the stack of ");
        life.add_who(text);
        text.numbered(", ", below as u64);
        text.put(if below == 1 {
            " byte below its top,"
        } else {
            " bytes below its top,"
        });
    }
}

// Adds a block of the heap, by who got it.
fn add_block(text: &mut Text, at: usize, history: &History) {
    if let Some(block) = history.blocks.at(at) {
        text.put(" on memory that ");
        match history.lives.who(block.process, block.event) {
            Some(who) => {
                if let Some(life) = history.lives.at(who) {
                    life.add_who(text);
                }
            }
            None => text.number(block.process as u64),
        }
        text.put(" got by ");
        text.put(call_name(block.call));
        text.numbered(" in event ", block.event as u64);
        text.put(",");
    }
}
