//! Why the calls on the clock are refused (book, chapter 13).

ghost use Rattle.std.specs.Prelude.{◌≡◌};
ghost use Rattle.refusal_reasons.specs.Causes.{first_reason};
ghost use Rattle.refusal_reasons.specs.Clock as specs;

use crate::numbers::is_negative;
use crate::reasons::{Cause, Reason, first_of};
use kernel_state::signed;

/// `sleep`.
pub(crate) fn sleep(seconds: u32) -> Option<Reason>
    ensures reason { result ≡ first_reason (specs.sleep_causes seconds) }
{
    let seconds = signed(seconds);
    first_of(&[
        Cause::new(Reason::NegativeTime, is_negative(seconds)),
        Cause::new(Reason::TimeTooLong, 2_147_483 < seconds),
    ])
}

/// `sleepms`.
pub(crate) fn sleepms(ticks: u32) -> Option<Reason>
    ensures reason { result ≡ first_reason (specs.sleepms_causes ticks) }
{
    first_of(&[Cause::new(Reason::NegativeTime, is_negative(signed(ticks)))])
}
