//! Data races of one run of the kernel: what its events do with memory, and what orders its processes. Two processes touch a byte, one of them
//! stores, and nothing that the kernel does for them orders the two.
//!
//! A process is named by its number, so what a dead process did comes before what the next one of its number does.
//!
//! Nothing of it runs: each law is the contract of a function that does nothing, proved for all states and lists of events.
//!
//! What an event does with memory (`specs/Deeds.antt`):
//!
//! | Deed | In which event, by which process |
//! |---|---|
//! | a load or store instruction that isn't trapped | its bytes, by the process that steps; its fetch is no deed |
//! | `create` | the stack is given; the name up to its zero is loaded, of at most 15 bytes |
//! | `open`, `mount`, `control` of the file system that deletes | the texts are loaded up to their zero, or all 128 bytes that are looked at |
//! | `write` | of the console, a byte is loaded as it or its carriage return is put; of the raw disk, its block as the call is made; of a file, its bytes as the call becomes the first, for its caller |
//! | `read` | of the console, a byte is stored as it is taken; of a disk, what came is stored in the completion, for the caller, if it lives |
//! | `getmem`, `getstk`, `mkbufpool` | what is granted is given |
//! | `getbuf` | the buffer is given with the word in front of it, to which is stored |
//! | `freemem`, `freestk`, `freebuf`, `ptreset`, `ptdelete` | what is given back is stored to |
//! | a death | the stack that the heap takes back is stored to, by the process that dies |
//!
//! What orders processes (`specs/Edges.antt`), beside each one's own order; u is the process that steps:
//!
//! | Rule | What u did comes before what the other does next, or the other's before u's |
//! |---|---|
//! | wake | u's before that of a process that it makes ready |
//! | birth | u's before that of a process that begins |
//! | death | that of a process that dies before u's |
//! | message | that of who put the message that u takes, and of who died if it tells of a death, before u's |
//! | token | that of who gave the token that u takes, first in first out, before u's: of a semaphore of processes, or of a port's room |
//! | port | that of who put the message that u takes from a port before u's; of all messages if it resets or deletes the port |
//! | buffer | that of who gave back, or made, the buffer that u gets before u's |
//! | absence | that of who died last before u's, if a call of u tells that its number is free |
//!
//! The 44 calls:
//!
//! | Calls | Rules |
//! |---|---|
//! | `getpid`, `yield`, `clktime`, `sleep`, `sleepms`; `getmem`, `freemem`, `getstk`, `freestk`; `semcount` | none |
//! | `create` | birth |
//! | `resume` | wake; absence |
//! | `suspend`, `chprio`, `getprio` | absence |
//! | `kill`, `exit` | death; message and wake, of the parent; absence |
//! | `semcreate`, `wait`, `signal`, `signaln`, `semreset` | token; wake |
//! | `semdelete` | wake |
//! | `send`, `receive`, `recvtime`, `recvclr` | message; wake; absence |
//! | `mkbufpool`, `getbuf`, `freebuf` | buffer; wake |
//! | `ptcreate`, `ptsend`, `ptrecv`, `ptreset`, `ptdelete` | port; token; wake; buffer, of the buffers that a reset gives back |
//! | `open`, `close`, `read`, `write`, `getc`, `putc`, `seek`, `control`, `mount` | none, but wake of a reader whom `control` of the console releases |
#![tactic(auto)]

pub mod deeds;
pub mod histories;
pub mod races;
