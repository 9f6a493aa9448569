//! A moment of a run, as a detector goes through it (`specs/Detects.antt`): the edges to the process that steps, the deeds, and the edges to
//! the others.

ghost use Rattle.std.specs.Prelude.{◌≡◌, ◌++◌, ◌∷◌, [], ℕ, suc, length, List};
ghost use Rattle.happens_before.specs.Clocks.{Clock, clocks_after, knows_in, with_parts};
ghost use Rattle.happens_before.specs.Histories.{Moment};
ghost use Rattle.happens_before.specs.Races.{Made};
ghost use Rattle.race_clocks.specs.Edges.{edges_past, edges_to};
ghost use Rattle.race_clocks.specs.Rows.{knows};
ghost use Rattle.race_detector.specs.Acts.{AllStand, AreActs};
ghost use Rattle.race_detector.specs.Detects.{Detects, HasLearnt, IsWithinMoment, Reaches};
ghost use Rattle.race_detector.specs.Finds.{FindsAll};
ghost use Rattle.race_detector.specs.Told.{Knows};
ghost use Rattle.race_detector.specs.declared.act.Act.{Act};
ghost use Rattle.race_detector.specs.declared.detector.Detector.{Detector};

/// As a moment comes, none of its edges is learnt, and none of its deeds is done.
pub fn a_moment_comes()
    ensures edges { (h : List Moment) (x : Detector) (parts : ℕ → ℕ → Clock) → Detects h x →
        HasLearnt parts (clocks_after h (length h)).knows [] x }
    ensures deeds { (h : List Moment) (m : Moment) (x : Detector) → Detects h x → Reaches (h ++ m ∷ []) (suc (length h)) 0 x }
{}

/// Once the edges to the process that steps are learnt, with what each process knew before as the clock of its part in this event, each
/// process knows what its part knows.
pub fn then_each_process_knows()
    ensures { (h : List Moment) (m : Moment) (x : Detector) (y : Made) →
        HasLearnt (with_parts (suc (length h)) (clocks_after h (length h)).knows (clocks_after h (length h)).kept)
        (clocks_after h (length h)).knows (edges_to m) x →
        y.time.event ≡ suc (length h) → Knows (h ++ m ∷ []) y (knows x.clocks y.access.process) }
{}

/// Then what stands for the deeds of the moment are the acts of the event.
pub fn then_its_acts_are_known()
    ensures { (h : List Moment) (m : Moment) (x : Detector) →
        HasLearnt (with_parts (suc (length h)) (clocks_after h (length h)).knows (clocks_after h (length h)).kept)
        (clocks_after h (length h)).knows (edges_to m) x →
        (acts : List Act) → AllStand (suc (length h)) acts m.deeds → AreActs (h ++ m ∷ []) (suc (length h)) acts x.clocks }
{}

/// Then none of the edges to the others is learnt. Once they are, with what each process knows now as the clock of its part in this event,
/// and the deeds are done, the moment is.
pub fn a_moment_goes()
    ensures begin { (h : List Moment) (m : Moment) (x : Detector) (parts : ℕ → ℕ → Clock) →
        HasLearnt (with_parts (suc (length h)) (clocks_after h (length h)).knows (clocks_after h (length h)).kept)
        (clocks_after h (length h)).knows (edges_to m) x →
        HasLearnt parts (knows_in (suc (length h)) m (clocks_after h (length h))) [] x }
    ensures end { (h : List Moment) (m : Moment) (x : Detector) →
        HasLearnt (with_parts (suc (length h)) (knows_in (suc (length h)) m (clocks_after h (length h))) (clocks_after h (length h)).kept)
        (knows_in (suc (length h)) m (clocks_after h (length h))) (edges_past m) x →
        Reaches (h ++ m ∷ []) (suc (length h)) (length m.deeds) x → Detects (h ++ m ∷ []) x }
{}

/// As a clock is kept, before a moment or within it, all else stays.
pub fn keeping_changes_nothing()
    ensures before { (old new : Detector) → new.clocks.processes ≡ old.clocks.processes → new.entries ≡ old.entries →
        new.told ≡ old.told → (h : List Moment) → Detects h old → Detects h new }
    ensures within { (old new : Detector) → new.clocks.processes ≡ old.clocks.processes → new.entries ≡ old.entries →
        new.told ≡ old.told → (h : List Moment) (m : Moment) (j : ℕ) → IsWithinMoment h m j old → IsWithinMoment h m j new }
{}

/// After the last moment all that the history tells is told, and nothing else.
pub fn a_run_is_told()
    ensures { (h : List Moment) (x : Detector) → Detects h x → FindsAll h x.told.items }
{}
