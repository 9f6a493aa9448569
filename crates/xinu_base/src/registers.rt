//! The registers of a process, and what may come of one instruction.

ghost use Rattle.std.specs.Prelude.{◌≡◌, ◌≤◌, length};
ghost use Rattle.xinu_base.specs.Names.{cause_name};

/// The registers of a process on the one processor core.
#[derive(Clone, Copy, PartialEq, Eq)]
pub struct Hart {
    /// The registers x0 to x31. x0 is 0 in each process of a sound state (`AreHarts` in `xinu_model`), and no instruction writes it.
    pub regs: [u32; 32],
    /// The address of the next instruction.
    pub pc: u32,
}

impl Hart {
    /// All registers zero, as at a number that is free.
    pub const ZERO: Hart = Hart {
        regs: [0; 32],
        pc: 0,
    };
}

/// Why a process was trapped.
#[derive(Clone, Copy, PartialEq, Eq)]
pub enum Cause {
    /// The pc is no multiple of 4, or RAM has no word there.
    Fetch,
    /// The word is no instruction.
    Illegal,
    /// The instruction is `EBREAK`.
    Break,
    /// A taken transfer goes to an address that isn't a multiple of 4.
    Target,
    /// A load reads from an address that isn't a multiple of its width, or outside RAM.
    Load,
    /// A store writes to an address that isn't a multiple of its width, or outside RAM.
    Store,
}

impl Cause {
    /// The word that stands for the cause in a transcript.
    pub fn name(self) -> &'static str
        ensures word { result.now ≡ cause_name self }
        ensures short { length result.now ≤ 7 }
    {
        match self {
            Cause::Fetch => "fetch",
            Cause::Illegal => "illegal",
            Cause::Break => "break",
            Cause::Target => "target",
            Cause::Load => "load",
            Cause::Store => "store",
        }
    }
}

/// What came of one instruction.
#[derive(Clone, Copy, PartialEq, Eq)]
pub enum Outcome {
    /// It was carried out.
    Went,
    /// It was `ECALL`, and the pc is after it.
    Call,
    /// The pc was the return address of a process's first function, so the process exits.
    Exit,
    /// It was trapped, and nothing was changed.
    Trap(Cause),
}
