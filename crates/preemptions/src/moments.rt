//! When the preemptions of a placement come, counted in events.

ghost use Rattle.std.specs.Prelude.{◌≡◌, ◌≤◌, length};
ghost use Rattle.preemptions.specs.Moments as spec;

use crate::events::is_step;
use xinu_base::Event;

/// How many events come before the step that follows so many steps: all, if none does.
pub fn events_before(base: &[Event], steps: u32) -> usize
    ensures inside { result ≤ length base.now }
    ensures before { result ≡ spec.events_before steps base.now }
{
    let mut passed = 0;
    for i in 0..base.len() {
        if is_step(base[i]) {
            if passed == steps {
                return i;
            }
            passed += 1;
        }
    }
    base.len()
}
