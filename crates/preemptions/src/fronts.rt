//! The front of a schedule, in which its preemptions come.

ghost use Rattle.std.specs.Prelude.{◌≡◌, ◌≤◌, ◌++◌, ℕ, List, length, take, drop};
ghost use Rattle.preemptions.specs.Placements.{IsPlacement};
ghost use Rattle.preemptions.specs.Preempted.{preempted_at};

use crate::events::is_step;
use crate::stretches::Stretch;
use xinu_base::Event;

/// The length of the front of these events: up to the step that follows those of a stretch, or all if none does. A placement in the stretch
/// changes the front alone, and so it changes no event after any longer one.
pub fn front(base: &[Event], stretch: Stretch) -> usize
    ensures inside { result ≤ length base.now }
    ensures parts { (n most : ℕ) (places : List ℕ) → result ≤ n → IsPlacement most stretch places → preempted_at places base.now ≡ preempted_at places (take n base.now) ++ drop n base.now }
{
    let mut steps = 0;
    for i in 0..base.len() {
        if is_step(base[i]) {
            if steps == stretch.within {
                return i + 1;
            }
            steps += 1;
        }
    }
    base.len()
}
