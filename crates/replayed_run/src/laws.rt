//! Laws of runs that can be had again.

ghost use Rattle.std.specs.Prelude.{◌≡◌, ◌<◌, false, true};
ghost use Rattle.replayed_run.specs.Replayed.{IsReplayed, IsSameRun, Replayed};

/// A run is one, if it is known what the events that it took before printed: when it comes back to where as many events were taken, its
/// state is the one that it had there, and it is over if it was.
pub fn runs_are_one()
    ensures state { (r s : Replayed) (a : IsReplayed r) (b : IsReplayed s) → IsSameRun r s → r.known ≡ true → s.taken ≡ r.taken → s.state ≡ r.state }
    ensures over { (r s : Replayed) (a : IsReplayed r) (b : IsReplayed s) → IsSameRun r s → r.known ≡ true → s.taken ≡ r.taken → s.over ≡ r.over }
{}

/// A run that came to one place isn't over at an earlier one, if it is known what its events printed up to that place.
pub fn runs_go_on()
    ensures { (r s : Replayed) (a : IsReplayed r) (b : IsReplayed s) → IsSameRun r s → r.known ≡ true → s.taken < r.taken → s.over ≡ false }
{}
