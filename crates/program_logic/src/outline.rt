//! Programs with what is known at each place, and the lock that they keep to.

ghost use Rattle.std.specs.Prelude.{◌≡◌};
ghost use Rattle.program_logic.specs.PlaceCheck as places;

use crate::knowledge::{Facts, facts_entail};
use crate::values::Term;

/// A place of a program.
#[derive(Clone, Copy)]
pub struct Place {
    /// The word that lies there.
    pub word: u32,
    /// What is known there without the token, if a process comes there without it.
    pub free: Option<Facts>,
    /// What is known there with the token, if a process comes there with it.
    pub held: Option<Facts>,
}

/// The lock.
#[derive(Clone, Copy)]
pub struct Lock {
    /// Its semaphore.
    pub sem: u32,
    /// The address of the word that it guards.
    pub word: u32,
    /// What the word is, by how often the token was given back.
    pub rule: Term,
}

/// Where the places of a program stand in a table of all.
#[derive(Clone, Copy)]
pub struct Range {
    /// The address of its first word.
    pub first: u32,
    /// The first of its places.
    pub start: usize,
    /// The place that follows its last one.
    pub after: usize,
}

// Whether all that is to be known at a place, if a process comes there, is known.
fn arrives(want: &Option<Facts>, have: &Facts) -> bool
    ensures { result ≡ places.arrives want.now have.now }
{
    match want {
        None => false,
        Some(want) => facts_entail(have, want),
    }
}

// The same of place k, with the token or without.
pub(crate) fn follows(table: &[Place], held: bool, k: usize, have: &Facts) -> bool
    ensures { result ≡ places.follows table.now held k have.now }
{
    if k >= table.len() {
        return false;
    }
    if held {
        arrives(&table[k].held, have)
    } else {
        arrives(&table[k].free, have)
    }
}

// The same of the place at an address.
pub(crate) fn leads(first: u32, table: &[Place], held: bool, target: u32, have: &Facts) -> bool
    ensures { result ≡ places.leads first table.now held target have.now }
{
    target >= first
        && (target - first) % 4 == 0
        && follows(table, held, ((target - first) / 4) as usize, have)
}
