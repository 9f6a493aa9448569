//! The constants of the kernel, by the names that the book gives them, and the size of RAM.

/// How many ticks a process runs before the others have their turn.
pub const QUANTUM: u8 = 2;

/// The fewest bytes of a stack.
pub const MINSTK: u32 = 400;

/// The address at which a process's first function returns.
pub const INITRET: u32 = 0xffff_fffc;

/// The answer of a call that was refused.
pub const SYSERR: i32 = -1;

/// The answer of a read at the end of a file.
pub const EOF: i32 = -2;

/// The answer of a call that waited in vain.
pub const TIMEOUT: i32 = -3;

/// The number of the raw disk among the devices.
pub const DISK0: i32 = 2;

/// The number of the first file device.
pub const LFILE0: u32 = 4;

/// The number of bytes of RAM.
pub const RAM_SIZE: u32 = 1_048_576;
