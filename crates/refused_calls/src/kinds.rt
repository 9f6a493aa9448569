//! Refused calls by their kinds: of one number, for one reason.

ghost use Rattle.std.specs.List.{list_any};
ghost use Rattle.std.specs.Prelude.{◌≡◌, [], IfOk, OnOk, take};
ghost use Rattle.refused_calls.specs.Kinds as specs;
ghost use Rattle.xinu_model.specs.Sound.Tables.{times};

use crate::refused::Refused;
use std::alloc::{AllocError, Global};

/// How many kinds are told at most.
const MOST: usize = 20;
/// How many calls are told one by one at most.
const MOST_CALLS: usize = 10_000;

/// A kind of refused calls.
#[derive(Clone, Copy)]
pub struct Kind {
    /// The first of them.
    pub first: Refused,
    /// How many there are.
    pub count: usize,
}

/// The kinds of refused calls in the order of their first calls, at most twenty.
///
/// # Errors
/// Out of memory.
pub fn kinds_of(alloc: Global, calls: &[Refused]) -> Result<Vec<Kind>, AllocError>
    ensures kinds { IfOk result (λ kinds. kinds.items ≡ specs.kinds_of calls.now) }
{
    let firsts = firsts_of(alloc, calls)?;
    let mut kinds = Vec::new(alloc);
    for first in firsts.as_slice() {
        kinds.push(kind_in(calls, first))?;
    }
    Ok(kinds)
}

/// Each refused call by itself, at most ten thousand.
///
/// # Errors
/// Out of memory.
pub fn each_of(alloc: Global, calls: &[Refused]) -> Result<Vec<Kind>, AllocError>
    ensures each { IfOk result (λ kinds. kinds.items ≡ specs.each_of calls.now) }
{
    let mut kinds = Vec::new(alloc);
    for first in first_calls(calls) {
        kinds.push(Kind {
            first: *first,
            count: 1,
        })?;
    }
    Ok(kinds)
}

// The first ten thousand of these calls, or all if there are fewer.
fn first_calls(calls: &[Refused]) -> &[Refused]
    ensures first { result.now ≡ take 10000 calls.now }
{
    if calls.len() > MOST_CALLS {
        &calls[..MOST_CALLS]
    } else {
        calls
    }
}

// The first calls of their kinds.
fn firsts_of(alloc: Global, calls: &[Refused]) -> Result<Vec<Refused>, AllocError>
    ensures firsts { IfOk result (λ firsts. firsts.items ≡ specs.firsts_after [] calls.now) }
{
    let mut firsts = Vec::new(alloc);
    for call in calls {
        push_first(&mut firsts, call)?;
    }
    Ok(firsts)
}

// Adds a call, if it is the first of its kind and there are fewer than twenty.
fn push_first(firsts: &mut Vec<Refused>, call: &Refused) -> Result<(), AllocError>
    ensures pushed { OnOk result (firsts.new.items ≡ specs.with_first call.now firsts.old.items) }
{
    if firsts.len() >= MOST || is_among(call, firsts.as_slice()) {
        return Ok(());
    }
    firsts.push(*call)?;
    Ok(())
}

// Whether one of these calls is of the same kind.
fn is_among(call: &Refused, calls: &[Refused]) -> bool
    ensures among { result ≡ list_any (specs.same_kind call.now) calls.now }
{
    for other in calls {
        if same_kind(call, other) {
            return true;
        }
    }
    false
}

// A kind by a call, and how many of these calls are of that kind.
fn kind_in(calls: &[Refused], call: &Refused) -> Kind
    ensures kind { result ≡ specs.kind_in calls.now call.now }
{
    Kind {
        first: *call,
        count: count_in(calls, call),
    }
}

// How many of these calls are of the kind of a call.
fn count_in(calls: &[Refused], call: &Refused) -> usize
    ensures count { result ≡ times (specs.same_kind call.now) calls.now }
{
    let mut count = 0;
    for other in calls {
        if same_kind(call, other) {
            count += 1;
        }
    }
    count
}

// Whether two refused calls are of one kind.
fn same_kind(a: &Refused, b: &Refused) -> bool
    ensures same { result ≡ specs.same_kind a.now b.now }
{
    a.call.number == b.call.number && a.reason as u8 == b.reason as u8
}
