//! What the bytes of a packet ask for, by the names with which they begin.

ghost use Rattle.std.specs.Prelude.{◌≡◌, MatchOption, IfOk, None, Some};
ghost use Rattle.gdb_packets.specs.Commands as spec;
ghost use Rattle.gdb_packets.specs.Commands.{changes, endings, looks, moves, points, queries};
ghost use Rattle.gdb_packets.specs.Names.{by_rows};
ghost use Rattle.gdb_packets.specs.Operands.{of_number, of_threads, of_two};

use crate::actions::resumption;
use crate::commands::{Command, Object, Point, PointKind, Threads};
use crate::digits::bytes_of;
use crate::operands::{alone, rest_after, threads_in, two_numbers, whole_number};
use std::alloc::{AllocError, Global};

/// What the bytes that a packet says ask for.
pub fn command_of(payload: &[u8]) -> Command
    ensures command { result ≡ spec.command_of payload.now }
{
    if let Some(command) = look(payload) {
        return command;
    }
    if let Some(command) = change(payload) {
        return command;
    }
    if let Some(command) = point(payload) {
        return command;
    }
    if let Some(command) = motion(payload) {
        return command;
    }
    if let Some(command) = ending(payload) {
        return command;
    }
    match query(payload) {
        Some(command) => command,
        None => Command::Unknown,
    }
}

/// The words after gdb's `monitor`. `None` if and only if the packet doesn't ask for that, or no digits write them.
///
/// # Errors
/// Out of memory.
pub fn monitor_words(alloc: Global, payload: &[u8]) -> Result<Option<Vec<u8>>, AllocError>
    ensures words { IfOk result (λ found. MatchOption found (spec.monitor_words payload.now ≡ None) (λ words. spec.monitor_words payload.now ≡ Some words.items)) }
{
    match rest_after(b"qRcmd,".as_slice(), payload) {
        Some(digits) => bytes_of(alloc, digits),
        None => Ok(None),
    }
}

// A packet that looks at the run.
fn look(payload: &[u8]) -> Option<Command>
    ensures row { result ≡ by_rows looks payload.now }
{
    if let Some(rest) = rest_after(b"?".as_slice(), payload) {
        return Some(alone(Command::Why, rest));
    }
    if let Some(rest) = rest_after(b"g".as_slice(), payload) {
        return Some(alone(Command::Registers, rest));
    }
    if let Some(rest) = rest_after(b"p".as_slice(), payload) {
        return Some(register(rest));
    }
    if let Some(rest) = rest_after(b"m".as_slice(), payload) {
        return Some(memory(rest));
    }
    if let Some(rest) = rest_after(b"Hg".as_slice(), payload) {
        return Some(looked_at(rest));
    }
    if let Some(rest) = rest_after(b"Hc".as_slice(), payload) {
        return Some(going_on(rest));
    }
    if let Some(rest) = rest_after(b"T".as_slice(), payload) {
        return Some(is_alive(rest));
    }
    None
}

// A packet that would change the state of the run.
fn change(payload: &[u8]) -> Option<Command>
    ensures row { result ≡ by_rows changes payload.now }
{
    match payload {
        [b'G' | b'P' | b'M' | b'X', ..] => Some(Command::Change),
        _ => None,
    }
}

// A packet that says where the run is to stop.
fn point(payload: &[u8]) -> Option<Command>
    ensures row { result ≡ by_rows points payload.now }
{
    if let Some(rest) = rest_after(b"Z0,".as_slice(), payload) {
        return Some(set(PointKind::Break, rest));
    }
    if let Some(rest) = rest_after(b"Z1,".as_slice(), payload) {
        return Some(set(PointKind::Break, rest));
    }
    if let Some(rest) = rest_after(b"Z2,".as_slice(), payload) {
        return Some(set(PointKind::Write, rest));
    }
    if let Some(rest) = rest_after(b"z0,".as_slice(), payload) {
        return Some(clear(PointKind::Break, rest));
    }
    if let Some(rest) = rest_after(b"z1,".as_slice(), payload) {
        return Some(clear(PointKind::Break, rest));
    }
    if let Some(rest) = rest_after(b"z2,".as_slice(), payload) {
        return Some(clear(PointKind::Write, rest));
    }
    None
}

// A packet that lets the run go on, or back, or ends it.
fn motion(payload: &[u8]) -> Option<Command>
    ensures row { result ≡ by_rows moves payload.now }
{
    if let Some(rest) = rest_after(b"s".as_slice(), payload) {
        return Some(alone(Command::Step(Threads::Any), rest));
    }
    if rest_after(b"S".as_slice(), payload).is_some() {
        return Some(Command::Step(Threads::Any));
    }
    if let Some(rest) = rest_after(b"c".as_slice(), payload) {
        return Some(alone(Command::Continue, rest));
    }
    if rest_after(b"C".as_slice(), payload).is_some() {
        return Some(Command::Continue);
    }
    if let Some(rest) = rest_after(b"bs".as_slice(), payload) {
        return Some(alone(Command::StepBack, rest));
    }
    if let Some(rest) = rest_after(b"bc".as_slice(), payload) {
        return Some(alone(Command::ContinueBack, rest));
    }
    if let Some(rest) = rest_after(b"vCont?".as_slice(), payload) {
        return Some(alone(Command::Resumptions, rest));
    }
    if let Some(rest) = rest_after(b"vCont;".as_slice(), payload) {
        return Some(resumption(rest));
    }
    None
}

// A packet that ends the session.
fn ending(payload: &[u8]) -> Option<Command>
    ensures row { result ≡ by_rows endings payload.now }
{
    if rest_after(b"vKill".as_slice(), payload).is_some() {
        return Some(Command::Kill);
    }
    match payload {
        [b'k', ..] => Some(Command::Kill),
        [b'D', ..] => Some(Command::Detach),
        _ => None,
    }
}

// A packet that asks about the program that answers.
fn query(payload: &[u8]) -> Option<Command>
    ensures row { result ≡ by_rows queries payload.now }
{
    if rest_after(b"qSupported".as_slice(), payload).is_some() {
        return Some(Command::Supported);
    }
    if let Some(rest) = rest_after(b"QStartNoAckMode".as_slice(), payload) {
        return Some(alone(Command::NoAcks, rest));
    }
    if rest_after(b"qAttached".as_slice(), payload).is_some() {
        return Some(Command::Attached);
    }
    if let Some(rest) = rest_after(b"qCRC:".as_slice(), payload) {
        return Some(checksum(rest));
    }
    if let Some(rest) = rest_after(b"qC".as_slice(), payload) {
        return Some(alone(Command::CurrentThread, rest));
    }
    if rest_after(b"qRcmd,".as_slice(), payload).is_some() {
        return Some(Command::Monitor);
    }
    if let Some(rest) = rest_after(b"qXfer:features:read:target.xml:".as_slice(), payload) {
        return Some(read(Object::Features, rest));
    }
    if let Some(rest) = rest_after(b"qXfer:threads:read::".as_slice(), payload) {
        return Some(read(Object::Threads, rest));
    }
    None
}

// The register of a number.
fn register(rest: &[u8]) -> Command
    ensures command { result ≡ of_number Command.Register rest.now }
{
    match whole_number(rest) {
        Some(number) => Command::Register(number),
        None => Command::Malformed,
    }
}

// Whether there is a thread of a number.
fn is_alive(rest: &[u8]) -> Command
    ensures command { result ≡ of_number Command.IsAlive rest.now }
{
    match whole_number(rest) {
        Some(thread) => Command::IsAlive(thread),
        None => Command::Malformed,
    }
}

// Bytes at an address.
fn memory(rest: &[u8]) -> Command
    ensures command { result ≡ of_two Command.Memory rest.now }
{
    match two_numbers(rest) {
        Some((at, count)) => Command::Memory(at, count),
        None => Command::Malformed,
    }
}

// The checksum of bytes at an address.
fn checksum(rest: &[u8]) -> Command
    ensures command { result ≡ of_two Command.Checksum rest.now }
{
    match two_numbers(rest) {
        Some((at, count)) => Command::Checksum(at, count),
        None => Command::Malformed,
    }
}

// The thread that is looked at.
fn looked_at(rest: &[u8]) -> Command
    ensures command { result ≡ of_threads Command.Look rest.now }
{
    match threads_in(rest) {
        Some(threads) => Command::Look(threads),
        None => Command::Malformed,
    }
}

// The thread that goes on.
fn going_on(rest: &[u8]) -> Command
    ensures command { result ≡ of_threads Command.Go rest.now }
{
    match threads_in(rest) {
        Some(threads) => Command::Go(threads),
        None => Command::Malformed,
    }
}

// The run is to stop there.
fn set(kind: PointKind, rest: &[u8]) -> Command
    ensures command { result ≡ of_two (spec.set kind) rest.now }
{
    match two_numbers(rest) {
        Some((at, count)) => Command::Set(Point { kind, at, count }),
        None => Command::Malformed,
    }
}

// The run is no longer to stop there.
fn clear(kind: PointKind, rest: &[u8]) -> Command
    ensures command { result ≡ of_two (spec.clear kind) rest.now }
{
    match two_numbers(rest) {
        Some((at, count)) => Command::Clear(Point { kind, at, count }),
        None => Command::Malformed,
    }
}

// A part of a text.
fn read(object: Object, rest: &[u8]) -> Command
    ensures command { result ≡ of_two (Command.Read object) rest.now }
{
    match two_numbers(rest) {
        Some((at, count)) => Command::Read(object, at, count),
        None => Command::Malformed,
    }
}
