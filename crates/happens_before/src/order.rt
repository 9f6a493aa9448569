//! What a detector's clocks tell: the clock of a part has exactly what happens before it.

ghost use Rattle.std.specs.Prelude.{◌≢◌, ◌↔◌, ◌<◌, ◌≤◌, ℕ, List};
ghost use Rattle.happens_before.specs.Clocks.{clock_of};
ghost use Rattle.happens_before.specs.Histories.{IsHistory, Moment};
ghost use Rattle.happens_before.specs.Order.{HappensBefore, Part, part};

/// What another process did up to event m comes before a part if and only if the clock of the part has m there, or more.
pub fn clocks_tell_order()
    ensures { (h : List Moment) (m u n v : ℕ) → IsHistory h → 0 < m → u ≢ v →
        m ≤ clock_of h n v u ↔ HappensBefore h (part m u) (part n v) }
{}

/// What happens before is no later event.
pub fn order_goes_forward()
    ensures { (h : List Moment) (x y : Part) → IsHistory h → HappensBefore h x y → x.event ≤ y.event }
{}
