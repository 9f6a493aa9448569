//! The transcript checker: whether a text is the transcript of the run that starts with some images on two disks, and goes through a
//! schedule.
//!
//! [`check_trace`] reads the disks from their images and starts the reference machine (`reference_boot`), which takes one event after another,
//! each as the definition says; and it reads the text along that run. Its answer is `checks` of `specs/Transcripts.antt` of `transcript_laws`,
//! and the law `checked_texts_are_transcripts` there says what that means: it is true if and only if a run of the abstract machine prints the
//! text. It refuses what the machine doesn't start with ([`NoStart`]), as `boot_on` of `xinu_model` says.
//!
//! A transcript is what one run prints, so whoever takes the events one by one and compares what is printed with the text needs no search:
//! there is one machine state and one place in the text. The one thing that events leave open, how many calls on files take effect, is an
//! argument of an event, and it is told by the text itself (`transcript_laws`).
//!
//! [`take`], [`lines_of`], [`is_over`] and [`after_line`] are for other readers of a text along a run (`trace_places`).
//!
//! Each function on the machine is a definition of `specs/Events.antt` in `xinu_model`, over its state as plain data (`reference_state`). An
//! event has these conditions: nothing is under way in the machine (`start` or `idle`: `IsStart`), its state is sound, as the laws on the
//! abstract machine keep it, and its counts are within what so many events can come to (`within`: `IsWithin`). A text is a slice of bytes and
//! a schedule gives its events one by one, so no list of the whole is made; the lines of one event are a list. Out of memory is the only
//! other refusal.
#![tactic(auto)]

mod calls;
mod checks;
mod choices;
mod driver;
mod events;
mod file_calls;
mod file_notes;
mod machines;
mod reading;
mod steps;

pub use checks::check_trace;
pub use events::{lines_of, take};
pub use machines::is_over;
pub use reading::after_line;
pub use reference_boot::boot::NoStart;
