//! An event in which nothing happens.

ghost use Rattle.std.specs.Prelude.{◌≡◌};
ghost use Rattle.reference_state.specs.Happened.{happened};
ghost use Rattle.xinu_model.specs.Machine.{nothing_happens};

use reference_state::{Happened, Machine};

/// Nothing is printed and nothing changes.
pub(crate) fn nothing(m: &Machine) -> Happened
    ensures nothing { happened result m.now.state ≡ nothing_happens m.now.state }
{
    Happened {
        lines: m.no_lines(),
        panics: false,
    }
}
