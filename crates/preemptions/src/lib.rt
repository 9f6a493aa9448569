//! Quantum ends put into a schedule, and all the ways to place them.
//!
//! A placement is an ascending list of places: at place k the end of a quantum, which is two ticks, comes before the step that follows k
//! steps of the schedule. `specs/Preempted.antt` says what a placement makes of events, and `specs/Placements.antt` which placements there
//! are. How many events come before each preemption is counted in `specs/Moments.antt`.
//!
//! A [`Placements`] is seen as the list of the placements still to come; it keeps one of them. The crate depends on `xinu_base` alone.
#![tactic(auto)]

mod events;
mod fronts;
pub mod laws;
mod moments;
mod next;
mod placements;
mod stretches;

pub use events::preempt;
pub use fronts::front;
pub use moments::events_before;
pub use placements::Placements;
pub use stretches::Stretch;
