//! The reference machine's calls on devices and names: a call on a device goes by what the device is that its first argument names.
//!
//! The modules [`calls`] and [`name_calls`] have the calls, and [`dispatch`] has them by their numbers. A call is a function over the state
//! inside an event, named as its definition. It answers a [`DeviceOutcome`]: the call went so, and left the files as they were, or it asks
//! them, which is all that it does then (`files`: `LeavesFiles`). So whoever has the files judges when the call takes effect.
//!
//! Each call begins as an event does (`start`: `IsStart`), and those that change the state in a sound one (`sound`: `IsSound`).
//! Out of memory is the only refusal by the code; `close` and `seek` take none and always answer (`answers`).
#![tactic(auto)]

pub mod calls;
pub mod dispatch;
mod file_calls;
pub mod name_calls;
mod outcomes;
mod table;

pub use outcomes::DeviceOutcome;
