//! Whether nobody can go on in a state.

ghost use Rattle.std.specs.Prelude.{◌≡◌, ◌↔◌, ◌≤◌, ◌<◌, [], ℕ, IsTrue, length, true};
ghost use Rattle.scheduling_laws.specs.Stuck as specs;
ghost use Rattle.scheduling_laws.specs.Stuck.{IsStuck};
ghost use Rattle.xinu_model.specs.Sound.State.{IsSound};
ghost use Rattle.xinu_model.specs.Tables.{semaphore_at, state_at};

use kernel_tables::KernelTables;
use machine::KernelState;
use replayed_run::Replay;
use xinu_base::{Pid, Sem, State};

/// Whether nobody can go on: somebody is left, and each process that is left is suspended, receives without a limit, or waits on a semaphore that
/// isn't a device's.
pub(crate) fn is_stuck(replay: &Replay) -> bool
    ensures stuck { IsTrue result ↔ IsStuck replay.now.state.tables }
{
    is_stuck_in(replay.state())
}

// The same of a state.
fn is_stuck_in(k: &KernelState) -> bool
    requires sound { IsSound k.now.call.state }
    ensures stuck { IsTrue result ↔ IsStuck k.now.call.state.tables }
{
    are_stuck(&k.tables)
}

// The same of tables.
fn are_stuck(tables: &KernelTables) -> bool
    requires many { length tables.now.processes ≡ 64 }
    ensures stuck { IsTrue result ↔ IsStuck tables.now }
{
    if tables.is_over() {
        return false;
    }
    if !are_held(tables) {
        return false;
    }
    are_devices_free(tables)
}

// Whether each process but the null process goes on only if another one lets it.
fn are_held(tables: &KernelTables) -> bool
    ensures held { IsTrue result ↔ ((p : ℕ) → 1 ≤ p → p < 64 → specs.is_held (state_at tables.now p) ≡ true) }
{
    for number in 1..64usize {
        if !is_held(tables.process(Pid::at(number)).state) {
            return false;
        }
    }
    true
}

// Whether a process in this state goes on only if another one lets it.
fn is_held(state: State) -> bool
    ensures held { result ≡ specs.is_held state }
{
    matches!(
        state,
        State::Free | State::Suspended | State::Receiving | State::Waiting
    )
}

// Whether nobody waits on a device's semaphore.
fn are_devices_free(tables: &KernelTables) -> bool
    ensures free { IsTrue result ↔ ((sem : ℕ) → sem < 4 → (semaphore_at tables.now sem).waiters ≡ []) }
{
    for number in 0..4usize {
        if tables.first_waiter(Sem::at(number)).is_some() {
            return false;
        }
    }
    true
}
