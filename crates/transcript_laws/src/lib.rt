//! Checked transcripts: when a text is the transcript of a run, and how it is told from the text alone.
//!
//! Nothing of it runs. A transcript is read along a run: one state and what is left of the text, event by event (`specs/Reading`). What an
//! event prints is determined by the state before it, but for one thing: how many calls on files take effect in it. The text tells that
//! (`specs/Choices`), so a reader never has to try two runs. `specs/Transcripts` says which texts are transcripts, and defines `checks`,
//! which a program can compute.
//!
//! [`laws`] has what is proved, for all events and texts, and for each start of the machine with fewer than 64 images on sound disks.
#![tactic(auto)]

pub mod laws;
