//! What an event adds to the clock and to the numbers of the ports: one at most.

ghost use Rattle.std.specs.Prelude.{◌≡◌, ◌+◌, ◌≤◌, ℕ};
ghost use Rattle.xinu_model.specs.Clock.{ticked};
ghost use Rattle.xinu_model.specs.Console.Signals.{keyed, transmits};
ghost use Rattle.xinu_model.specs.Events.{stepped};
ghost use Rattle.xinu_model.specs.Machine.{Xinu};
ghost use Rattle.xinu_model.specs.Ports.Queues.{port_at};
ghost use Rattle.xinu_model.specs.Sound.State.{IsSound};

/// The clock goes on in ticks alone, and by one in each.
pub fn ticks_move_the_clock()
    ensures step { (s : Xinu) → IsSound s → (stepped s).state.tables.ticks ≡ s.tables.ticks }
    ensures tick { (s : Xinu) → (ticked s).state.tables.ticks ≡ s.tables.ticks + 1 }
    ensures key { (b : ℕ) (s : Xinu) → IsSound s → (keyed b s).state.tables.ticks ≡ s.tables.ticks }
    ensures sent { (s : Xinu) → IsSound s → (transmits s).state.tables.ticks ≡ s.tables.ticks }
{}

/// The number of a port rises by at most one in an event.
pub fn ports_are_renewed_once()
    ensures step { (s : Xinu) → IsSound s → (q : ℕ) → (port_at (stepped s).state.parts.ports q).seq ≤ (port_at s.parts.ports q).seq + 1 }
    ensures tick { (s : Xinu) → IsSound s → (q : ℕ) → (port_at (ticked s).state.parts.ports q).seq ≤ (port_at s.parts.ports q).seq + 1 }
    ensures key { (b : ℕ) (s : Xinu) → IsSound s → (q : ℕ) →
        (port_at (keyed b s).state.parts.ports q).seq ≤ (port_at s.parts.ports q).seq + 1 }
    ensures sent { (s : Xinu) → IsSound s → (q : ℕ) → (port_at (transmits s).state.parts.ports q).seq ≤ (port_at s.parts.ports q).seq + 1 }
{}
