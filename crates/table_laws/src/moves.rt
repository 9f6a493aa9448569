//! Moves inside an event: each keeps what holds of the tables at each moment.

ghost use Rattle.std.specs.Prelude.{◌≡◌, ◌≢◌, ◌<◌, ◌+◌, ℕ, suc, List, [], ◌∷◌, Option, None, ℤ, true, Bool, filter};
ghost use Rattle.xinu_base.specs.Constants.{NSEM};
ghost use Rattle.xinu_base.specs.declared.processes.Process.{Process};
ghost use Rattle.xinu_base.specs.declared.processes.Rest.{Rest};
ghost use Rattle.xinu_base.specs.declared.processes.State.TheVariants.{Waiting};
ghost use Rattle.table_laws.specs.Moves.{CanMove, CanBeReady};
ghost use Rattle.table_laws.specs.Preserve.{IsPreserved, MayCall};
ghost use Rattle.xinu_model.specs.Machine.{Xinu, CallState, CallResult, unblock_all_with};
ghost use Rattle.xinu_model.specs.Process.Scheduling.{ready, ready_all, resched};
ghost use Rattle.xinu_model.specs.Semaphores.Counts.{with_tokens};
ghost use Rattle.xinu_model.specs.Semaphores.Waiting.{await, signalled, signalled_times};
ghost use Rattle.xinu_model.specs.Sound.Tables.{FitsOwner, IsInside, IsSoundTables};
ghost use Rattle.xinu_model.specs.Tables.{Tables, process_at, message_at, semaphore_at, Place, InSemaphore, move_to};
ghost use Rattle.table_laws.specs.Repeated.{repeated};
ghost use Rattle.xinu_base.specs.declared.semaphores.Owner.{Owner};
ghost use Rattle.table_laws.specs.Frame.{Frame, waits_at};

/// A process moves if it may: to another state, message and place.
pub fn moves_keep_inside()
    ensures moved { (t : Tables) (p : ℕ) (x : Process) (message : Option ℕ) (place : Place) → IsInside t → CanMove t p x message place →
        IsInside (move_to p x message place t) }
    ensures ready { (t : Tables) (p : ℕ) → IsInside t → CanBeReady t p → IsInside (ready p t) }
{}

/// Those who are unblocked become ready, one after another, whatever they answer, and nothing else of the state changes.
pub fn the_unblocked_become_ready()
    ensures { (value : ℤ) (ps : List ℕ) (d : CallState) →
        (unblock_all_with value ps d).state ≡ record d.state { tables = ready_all ps d.state.tables } }
{}

/// A signal on a semaphore in use: the first waiter becomes ready, or there is one token more.
pub fn signals_keep_inside()
    ensures signalled { (sem : ℕ) (d : CallState) → IsInside d.state.tables → sem < NSEM → (semaphore_at d.state.tables sem).owner ≢ None →
        IsInside (signalled sem d).state.tables }
    ensures waiter { (t : Tables) (sem p : ℕ) (ps : List ℕ) → IsInside t → (semaphore_at t sem).waiters ≡ p ∷ ps → IsInside (ready p t) }
    ensures token { (t : Tables) (sem : ℕ) → IsInside t → sem < NSEM → (semaphore_at t sem).owner ≢ None →
        (semaphore_at t sem).waiters ≡ [] → IsInside (with_tokens sem ((semaphore_at t sem).tokens + 1) t) }
{}

/// A caller waits for a token, or takes one and goes on.
pub fn waits_keep_inside()
    ensures waits { (t : Tables) (sem : ℕ) (left : Rest) → IsSoundTables t → t.current ≢ 0 → sem < NSEM → (semaphore_at t sem).tokens ≡ 0 →
        FitsOwner sem (semaphore_at t sem).owner left →
        IsInside (move_to t.current (record (process_at t t.current) { state = Waiting; rest = left }) (message_at t t.current) (InSemaphore sem) t) }
    ensures takes { (t : Tables) (sem n : ℕ) → IsSoundTables t → sem < NSEM → (semaphore_at t sem).tokens ≡ suc n →
        IsSoundTables (with_tokens sem n t) }
    ensures either { (sem : ℕ) (left : Rest) (then_ : Xinu → CallResult) (s : Xinu) → MayCall s → sem < NSEM →
        FitsOwner sem (semaphore_at s.tables sem).owner left →
        ((n : ℕ) → (semaphore_at s.tables sem).tokens ≡ suc n → MayCall (record s { tables = with_tokens sem n s.tables }) → IsPreserved (then_ (record s { tables = with_tokens sem n s.tables }))) →
        IsPreserved (await sem left then_ s) }
{}

/// n signals at once are n signals, one after another.
pub fn signals_add_up()
    ensures { (sem n : ℕ) (d : CallState) → IsInside d.state.tables → signalled_times sem n d ≡ repeated n (signalled sem) d }
{}

/// A resched inside an event leaves sound tables.
pub fn rescheds_are_sound()
    ensures { (t : Tables) → IsInside t → IsSoundTables (resched t) }
{}

/// On a semaphore that is left alone those wait who waited before and still do, in the same order.
pub fn waiters_keep_their_order()
    ensures { (mine : ℕ → Option Owner → Bool) (asks : Rest → Bool) (t u : Tables) (sem : ℕ) → Frame mine asks t u → IsInside u → mine sem (semaphore_at t sem).owner ≡ true
        → ((left : Rest) → FitsOwner sem (semaphore_at u sem).owner left → asks left ≡ true) → (semaphore_at u sem).waiters ≡ filter (waits_at asks u) (semaphore_at t sem).waiters }
{}
