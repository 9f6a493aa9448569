//! Steps of the machine that print nothing, many in one call.

ghost use Rattle.std.specs.Prelude.{◌≡◌, ◌+◌, ◌≤◌, false};
ghost use Rattle.kernel.specs.Taken.{taken_at_once};
ghost use Rattle.xinu_model.specs.Sound.State.{IsSound};
ghost use Rattle.xinu_model.specs.Steps.{ArePlain, stepped_times};

use crate::machine::Machine;

impl Machine {
    /// Takes steps that print nothing, at most so many, and answers how many. None of them ends the run. No event ended it before, and with
    /// so many steps there are at most 10^9 events.
    ///
    /// They change registers and RAM alone. If there were fewer, the next step is one that may print, which [`Machine::event`] takes: the
    /// current process has something left of a call, or its next instruction calls, traps or returns from its first function.
    pub fn steps(&mut self, most: u32) -> u32
        requires goes_on { self.old.over ≡ false }
        requires few { self.old.events + most ≤ 1000000000 }
        ensures steps { self.new.state ≡ stepped_times result self.old.state }
        ensures plain { ArePlain result self.old.state }
        ensures tables { self.new.state.tables ≡ self.old.state.tables }
        ensures parts { self.new.state.parts ≡ self.old.state.parts }
        ensures image { self.new.image ≡ self.old.image }
        ensures sound { IsSound self.new.state }
        ensures counted { self.new.events ≡ self.old.events + result }
        ensures over { self.new.over ≡ false }
        ensures taken { result ≡ taken_at_once most self.old.state }
        ensures most { result ≤ most }
    {
        let taken = self.kernel.steps(most);
        self.events += taken as u64;
        taken
    }
}
