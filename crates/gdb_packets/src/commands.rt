//! What a packet asks for.

/// Which threads a packet means.
#[derive(Clone, Copy)]
pub enum Threads {
    /// All of them, or any.
    Any,
    /// The one of this number, which isn't 0.
    One(u32),
}

/// What stops the run.
#[derive(Clone, Copy)]
pub enum PointKind {
    /// The instruction at the address comes next.
    Break,
    /// One of the bytes at the address changes.
    Write,
}

/// Bytes of RAM at which the run stops.
#[derive(Clone, Copy)]
pub struct Point {
    /// What stops it.
    pub kind: PointKind,
    /// The address.
    pub at: u32,
    /// How many bytes.
    pub count: u32,
}

/// A text that is read in parts.
#[derive(Clone, Copy)]
pub enum Object {
    /// The description of the registers.
    Features,
    /// The list of the threads.
    Threads,
}

/// What a packet asks for.
#[derive(Clone, Copy)]
pub enum Command {
    /// `?`: why the run stands.
    Why,
    /// `g`: all registers.
    Registers,
    /// `p`: the register of a number.
    Register(u32),
    /// `m`: so many bytes from an address on.
    Memory(u32, u32),
    /// `Hg`: the thread that is looked at.
    Look(Threads),
    /// `Hc`: the thread that goes on.
    Go(Threads),
    /// `T`: whether there is a thread of this number.
    IsAlive(u32),
    /// `G`, `P`, `M`, `X`: a change of registers or memory.
    Change,
    /// `Z`: the run is to stop there.
    Set(Point),
    /// `z`: the run is no longer to stop there.
    Clear(Point),
    /// `s`, `vCont;s`: one instruction.
    Step(Threads),
    /// `c`, `vCont;c`: the run goes on.
    Continue,
    /// `vCont;c:T` alone: the run goes on, and no stop of another thread is told.
    ContinueOne(u32),
    /// `bs`: one instruction back.
    StepBack,
    /// `bc`: the run goes back.
    ContinueBack,
    /// `vCont?`: which actions there are.
    Resumptions,
    /// `k`, `vKill`: the run is dropped.
    Kill,
    /// `D`: gdb goes away.
    Detach,
    /// `qSupported`: what is supported.
    Supported,
    /// `QStartNoAckMode`: packets aren't answered by `+` and `-` any more.
    NoAcks,
    /// `qAttached`: whether the run was there before gdb.
    Attached,
    /// `qCRC`: the checksum of so many bytes at an address.
    Checksum(u32, u32),
    /// `qC`: the thread of the last stop.
    CurrentThread,
    /// `qRcmd`: the words after gdb's `monitor`.
    Monitor,
    /// `qXfer:..:read`: so many bytes of a text from a place on.
    Read(Object, u32, u32),
    /// A name of the table, and after it something else than belongs there.
    Malformed,
    /// No name of the table.
    Unknown,
}
