//! The registers of processes.

ghost use Rattle.std.specs.Prelude.{◌≡◌, slice_set};

use reference_state::Machine;
use rv_hart::Hart;
use xinu_base::Pid;

/// `p` has these registers from now on.
pub(crate) fn set_hart(m: &mut Machine, p: Pid, hart: Hart)
    ensures hart { m.new ≡ record m.old { state = record m.old.state { harts = slice_set m.old.state.harts p hart } } }
{
    m.harts[p.index()] = hart;
}
