//! Repeats: what is kept of a schedule.

ghost use Rattle.std.specs.Prelude.{◌≡◌, ◌+◌, ◌<◌, ◌≤◌, ◌^◌, ◌∷◌, ◌++◌, length, drop, replicate};
ghost use Rattle.schedule_file.specs.LineKinds.{round};
ghost use Rattle.schedule_file.specs.Repeats.{repeat_events};

use xinu_base::Event;

/// The events of a round of the machine: 1000 steps, 64 transmissions, 8 completions of each disk and a tick.
const ROUND_EVENTS: u32 = 1081;

/// Events that follow one another.
#[derive(Clone, Copy)]
pub(crate) enum Repeat {
    /// The same event n times.
    Same(Event, u32),
    /// n rounds of the machine.
    Rounds(u32),
}

impl Repeat {
    /// How many events the repeat has.
    pub(crate) fn length(self) -> u64
        ensures length { result ≡ length (repeat_events self) }
        ensures small { result < 2 ^ 43 }
    {
        match self {
            Repeat::Same(_, count) => count as u64,
            Repeat::Rounds(count) => count as u64 * ROUND_EVENTS as u64,
        }
    }

    /// The event of the repeat after this many others, and how many times it comes again before the next kind of event.
    #[cold]
    pub(crate) fn stretch_at(self, place: u32) -> (Event, u32)
        requires within { place < length (repeat_events self) }
        ensures events { drop place (repeat_events self) ≡ result.0 ∷ (replicate result.1 result.0 ++ drop (place + 1 + result.1) (repeat_events self)) }
        ensures within { place + 1 + result.1 ≤ length (repeat_events self) }
    {
        match self {
            Repeat::Same(event, count) => (event, count - place - 1),
            Repeat::Rounds(_) => round_stretch(place % ROUND_EVENTS),
        }
    }
}

// The event of a round after this many others, and how many times it comes again before the next kind of event.
fn round_stretch(place: u32) -> (Event, u32)
    requires within { place < 1081 }
    ensures events { drop place round ≡ result.0 ∷ (replicate result.1 result.0 ++ drop (place + 1 + result.1) round) }
    ensures within { place + 1 + result.1 ≤ 1081 }
{
    if place < 1000 {
        (Event::Step, 1000 - place - 1)
    } else if place < 1064 {
        (Event::Tx, 1064 - place - 1)
    } else if place < 1072 {
        (Event::Disk1, 1072 - place - 1)
    } else if place < 1080 {
        (Event::Disk0, 1080 - place - 1)
    } else {
        (Event::Tick, 0)
    }
}
