//! The reasons of refusals, and the first cause that holds.

ghost use Rattle.std.specs.Prelude.{◌≡◌};
ghost use Rattle.refusal_reasons.specs.Causes.{first_reason};

/// Why a call is answered -1.
#[derive(Clone, Copy)]
pub enum Reason {
    /// No call has the number.
    NoCall,
    /// No process has the number.
    NoProcess,
    /// The process is the null process.
    NullProcess,
    /// The process isn't suspended.
    NotSuspended,
    /// The process is neither ready nor the caller.
    NotReady,
    /// The new process's priority is below 1.
    PriorityBelowOne,
    /// The call isn't refused: it answers a priority that is -1.
    PriorityIsMinusOne,
    /// The 16 bytes of the new process's name don't lie in RAM.
    NameOutsideRam,
    /// Each of the 64 numbers has a process.
    NoFreeProcess,
    /// No bytes are asked for, or given back.
    NoBytes,
    /// The heap has no free block of so many bytes.
    NoBlock,
    /// The address isn't a multiple of 8.
    NotAligned,
    /// No stack of so many bytes ends at the address.
    NotTop,
    /// Some of the bytes are free.
    FreeAlready,
    /// The bytes aren't taken from the heap.
    NotTaken,
    /// No semaphore has the number.
    NoSemaphore,
    /// The semaphore is the kernel's: a device's, a pool's or a port's.
    KernelSemaphore,
    /// Each of the 128 semaphores is in use.
    NoFreeSemaphore,
    /// Fewer than two semaphores are free.
    NoTwoSemaphores,
    /// The count is negative.
    NegativeCount,
    /// The number of signals is negative.
    NegativeSignals,
    /// The count would pass the greatest.
    CountTooGreat,
    /// The call isn't refused: it answers a count that is -1.
    CountIsMinusOne,
    /// The process holds a message.
    HoldsMessage,
    /// The call isn't refused: it answers a message that is -1.
    MessageIsMinusOne,
    /// The time is negative.
    NegativeTime,
    /// The time is longer than 2147483 seconds.
    TimeTooLong,
    /// The buffers are smaller than 8 bytes.
    BufferTooSmall,
    /// The buffers are larger than 8192 bytes.
    BufferTooLarge,
    /// The pool has no buffer.
    NoBuffers,
    /// The pool has more than 2048 buffers.
    TooManyBuffers,
    /// All 20 pools are made.
    NoFreePool,
    /// The memory for the pool belongs to another pool, though it was given back to the heap.
    MeetsPool,
    /// No pool has the number.
    NoPool,
    /// The buffer at the address is free.
    BufferIsFree,
    /// No process holds a buffer at the address.
    NotHeld,
    /// No port in use has the number.
    NoPort,
    /// All 30 ports are in use.
    NoFreePort,
    /// What is done with a port's messages is neither 0 nor 1.
    NoSuchDisposal,
    /// No device has the number.
    NoDevice,
    /// The device doesn't offer the call.
    NotOffered,
    /// The device doesn't have the control function.
    NoFunction,
    /// The number of bytes is negative.
    NegativeBytes,
    /// The bytes don't lie in RAM.
    OutsideRam,
    /// The raw disk has no block of the number.
    NoDiskBlock,
    /// No text ends within 128 bytes at the address of the name.
    NoName,
    /// No text ends within 128 bytes at the address of the mode.
    NoMode,
    /// The name of the file is empty.
    EmptyName,
    /// The name of the file is longer than 27 bytes.
    NameTooLong,
    /// The name of the file has a byte 0.
    ZeroInName,
    /// The mode has another letter than `r`, `w`, `o` and `n`.
    NoModeLetter,
    /// The mode has a letter twice.
    LetterTwice,
    /// The mode asks for an old file and for a new one.
    OldAndNew,
    /// No mounted prefix begins the name or what became of it, that became too long, or was replaced too often.
    NotMapped,
    /// What the name is mapped to can't be opened by a name.
    NotOpened,
    /// No text ends within 128 bytes at the address of the prefix.
    NoPrefixText,
    /// No text ends within 128 bytes at the address of the replacement.
    NoReplacementText,
    /// Forty prefixes are mounted.
    NoFreeRow,
    /// The prefix is longer than 31 bytes.
    PrefixTooLong,
    /// The replacement is longer than 31 bytes.
    ReplacementTooLong,
    /// The pool has no free buffer, which is never so in a sound state.
    NoFreeBuffer,
    /// The semaphore on which the process waited was deleted.
    SemaphoreDeleted,
    /// The port was reset, deleted or made anew since the call began.
    PortRenewed,
    /// The port has no message, which is never so in a sound state.
    NoMessage,
    /// The disk answered the call -1 at its completion.
    DiskRefused,
    /// The completion of the raw disk failed.
    CompletionFailed,
    /// The file is open.
    FileIsOpen,
    /// All six file devices have a file open.
    SixOpen,
    /// Only a new file was asked for, and there is one of this name.
    FileExists,
    /// No file has the name.
    NoFile,
    /// There are 78 files.
    TooManyFiles,
    /// The device has no file open.
    NotOpen,
    /// The file wasn't opened for reading.
    NotReadable,
    /// The file wasn't opened for writing.
    NotWritable,
    /// The disk has no room.
    NoRoom,
    /// The position is negative.
    NegativePosition,
    /// The position is beyond the end of the file.
    BeyondEnd,
}

/// A cause: whether it holds, and the reason that it gives.
#[derive(Clone, Copy)]
pub struct Cause {
    /// Whether it holds.
    pub holds: bool,
    /// The reason.
    pub reason: Reason,
}

/// The reason of the first cause that holds, if one does.
pub(crate) fn first_of(causes: &[Cause]) -> Option<Reason>
    ensures first { result ≡ first_reason causes.now }
{
    for cause in causes {
        if cause.holds {
            return Some(cause.reason);
        }
    }
    None
}

impl Cause {
    /// A reason, if that holds.
    pub(crate) fn new(reason: Reason, holds: bool) -> Cause
        ensures cause { result ≡ record { holds = holds; reason = reason } }
    {
        Cause { holds, reason }
    }
}
