//! Calls that were refused, in words: each kind once, or each call.

ghost use Rattle.std.specs.Prelude.{◌≡◌, ◌++◌, ℕ, List, IfOk, OnOk};
ghost use Rattle.explain_command.specs.Refusals as specs;
ghost use Rattle.explain_command.specs.Refusals.{AreRefusals, IsRefusal};

use crate::places::add_function;
use crate::sights::place_line;
use crate::steps::add_call;
use itoa::Buffer;
use printed_runs::Text;
use refused_calls::{Kind, Refused, each_of, kinds_of};
use run_story::Story;
use std::alloc::{AllocError, Global};
use xinu_base::{Call, Pid};

/// The text that tells of refused calls: a line for each kind, or for each call.
///
/// # Errors
/// Out of memory.
pub(crate) fn refused_text(
    alloc: Global,
    calls: &[Refused],
    tells_each: bool,
    story: &Story,
    files: &[Vec<u8>],
) -> Result<Vec<u8>, AllocError>
    ensures told { IfOk result (λ text. AreRefusals (specs.kinds_told tells_each calls.now) text.items) }
{
    let kinds = kinds_told(alloc, calls, tells_each)?;
    let mut told = Vec::new(alloc);
    for kind in kinds.as_slice() {
        push_kind(alloc, &mut told, kind, story, files)?;
    }
    Ok(told)
}

// The kinds, or each call by itself.
fn kinds_told(alloc: Global, calls: &[Refused], tells_each: bool) -> Result<Vec<Kind>, AllocError>
    ensures kinds { IfOk result (λ kinds. kinds.items ≡ specs.kinds_told tells_each calls.now) }
{
    if tells_each {
        each_of(alloc, calls)
    } else {
        kinds_of(alloc, calls)
    }
}

// Appends the line of a kind.
fn push_kind(
    alloc: Global,
    told: &mut Vec<u8>,
    kind: &Kind,
    story: &Story,
    files: &[Vec<u8>],
) -> Result<(), AllocError>
    ensures told { OnOk result ((line : List ℕ) × (IsRefusal kind.now line × (told.new.items ≡ told.old.items ++ line))) }
{
    let first = &kind.first;
    let who = who_text(alloc, story, first.process)?;
    let call = call_text(alloc, first.call)?;
    let place = function_text(alloc, files, first.pc)?;
    push_line(
        told,
        kind,
        who.as_str(),
        call.as_str(),
        first.reason.words(),
        place.as_str(),
    )
}

// Appends it, with who made the first call, what it is, why it is refused, and in which function it was made.
#[tactic(auto, unfolding(crate::specs::Refusals::refusal_line))]
fn push_line(
    told: &mut Vec<u8>,
    kind: &Kind,
    who: &str,
    call: &str,
    reason: &str,
    place: &str,
) -> Result<(), AllocError>
    ensures line { OnOk result (told.new.items ≡ told.old.items ++ specs.refusal_line kind.now who.now call.now reason.now place.now) }
{
    push_first(told, kind.first.taken, who, call)?;
    told.extend_from_slice(reason.as_bytes())?;
    push_count(told, kind.count)?;
    push_place(told, kind.first.pc, place)
}

// Appends the event, who made the call, and the call.
#[tactic(auto, unfolding(crate::specs::Refusals::first_text))]
fn push_first(told: &mut Vec<u8>, taken: u32, who: &str, call: &str) -> Result<(), AllocError>
    ensures first { OnOk result (told.new.items ≡ told.old.items ++ specs.first_text taken who.now call.now) }
{
    push_numbered(told, "Event ", taken as u64 + 1, ": ")?;
    push_made(told, who, call)
}

// Appends who made a call, and the call.
#[tactic(auto, unfolding(crate::specs::Refusals::made_text))]
fn push_made(told: &mut Vec<u8>, who: &str, call: &str) -> Result<(), AllocError>
    ensures made { OnOk result (told.new.items ≡ told.old.items ++ specs.made_text who.now call.now) }
{
    told.extend_from_slice(who.as_bytes())?;
    push_refused(told, call)
}

// Appends that a call is refused.
#[tactic(auto, unfolding(crate::specs::Refusals::refused_text))]
fn push_refused(told: &mut Vec<u8>, call: &str) -> Result<(), AllocError>
    ensures refused { OnOk result (told.new.items ≡ told.old.items ++ specs.refused_text call.now) }
{
    push_between(told, " is refused ", call, ": ")
}

// Appends how many calls were refused so, if there are several.
#[tactic(auto, unfolding(crate::specs::Refusals::count_text))]
fn push_count(told: &mut Vec<u8>, count: usize) -> Result<(), AllocError>
    ensures count { OnOk result (told.new.items ≡ told.old.items ++ specs.count_text count) }
{
    if count <= 1 {
        return Ok(());
    }
    push_numbered(told, "; it was refused so ", count as u64, " times")
}

// Appends where the call was made.
#[tactic(auto, unfolding(crate::specs::Refusals::place_text))]
fn push_place(told: &mut Vec<u8>, pc: u32, place: &str) -> Result<(), AllocError>
    ensures place { OnOk result (told.new.items ≡ told.old.items ++ specs.place_text pc place.now) }
{
    push_pc(told, pc)?;
    push_both(told, place, "\n")
}

// Appends an address.
#[tactic(auto, unfolding(crate::specs::Refusals::pc_text))]
fn push_pc(told: &mut Vec<u8>, pc: u32) -> Result<(), AllocError>
    ensures pc { OnOk result (told.new.items ≡ told.old.items ++ specs.pc_text pc) }
{
    let line = place_line(pc);
    told.extend_from_slice(b"; ")?;
    told.extend_from_slice(line.bytes())
}

// Appends a number between two texts.
#[tactic(auto, unfolding(crate::specs::Refusals::numbered_text))]
fn push_numbered(
    told: &mut Vec<u8>,
    before: &str,
    number: u64,
    after: &str,
) -> Result<(), AllocError>
    ensures numbered { OnOk result (told.new.items ≡ told.old.items ++ specs.numbered_text before.now number after.now) }
{
    let mut digits = Buffer::new();
    told.extend_from_slice(before.as_bytes())?;
    told.extend_from_slice(digits.format(number).as_bytes())?;
    told.extend_from_slice(after.as_bytes())
}

// Appends a text between two others.
#[tactic(auto, unfolding(crate::specs::Refusals::between_text))]
fn push_between(told: &mut Vec<u8>, before: &str, text: &str, after: &str) -> Result<(), AllocError>
    ensures between { OnOk result (told.new.items ≡ told.old.items ++ specs.between_text before.now text.now after.now) }
{
    told.extend_from_slice(before.as_bytes())?;
    told.extend_from_slice(text.as_bytes())?;
    told.extend_from_slice(after.as_bytes())
}

// Appends two texts.
fn push_both(told: &mut Vec<u8>, first: &str, second: &str) -> Result<(), AllocError>
    ensures both { OnOk result (told.new.items ≡ told.old.items ++ first.now ++ second.now) }
{
    told.extend_from_slice(first.as_bytes())?;
    told.extend_from_slice(second.as_bytes())
}

// A process, by its number and its name.
fn who_text(alloc: Global, story: &Story, process: Pid) -> Result<String, AllocError> {
    let mut text = Text::new(alloc);
    story.add_who(&mut text, process.index());
    text.whole()
}

// A call, by its name and its arguments.
fn call_text(alloc: Global, call: Call) -> Result<String, AllocError> {
    let mut text = Text::new(alloc);
    add_call(&mut text, call);
    text.whole()
}

// The function that an address is in, if one is known.
fn function_text(alloc: Global, files: &[Vec<u8>], pc: u32) -> Result<String, AllocError> {
    let mut text = Text::new(alloc);
    add_function(&mut text, ", ", files, pc);
    text.whole()
}
