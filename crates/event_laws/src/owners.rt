//! Who has which address: none is claimed twice, unless a process gives away what a pool or a stack has.

ghost use Rattle.std.specs.Prelude.{◌≡◌, ◌≢◌, ℕ, true, false, List};
ghost use Rattle.xinu_base.specs.declared.events.End.{End};
ghost use Rattle.xinu_base.specs.declared.events.Event.{Event};
ghost use Rattle.xinu_base.specs.declared.lines.TranscriptLine.{TranscriptLine};
ghost use Rattle.event_laws.specs.Ownership.Apart.{IsApart, is_in_pool, is_in_stack};
ghost use Rattle.part_laws.specs.FreeCells.{is_in_free};
ghost use Rattle.xinu_model.specs.Boot.{Loaded, Boots, boot};
ghost use Rattle.xinu_model.specs.Events.{Happens};
ghost use Rattle.event_laws.specs.Ownership.GivingAway.{GivesAway, GivesNothingAway};
ghost use Rattle.xinu_model.specs.Machine.{Xinu};
ghost use Rattle.xinu_model.specs.Pools.Buffers.{pool_at};
ghost use Rattle.xinu_model.specs.Runs.{RunsTo};
ghost use Rattle.xinu_model.specs.Sound.State.{IsSound};
ghost use Rattle.xinu_model.specs.Tables.{process_at};

/// When the machine starts, no address is claimed twice.
pub fn boot_is_apart()
    ensures { (images : List Loaded) (start : Xinu) → boot images ≡ Boots start → IsApart start }
{}

/// No event makes an address be claimed twice, unless it gives away what a pool or a stack has.
pub fn events_keep_apart()
    ensures { (old : Xinu) (e : Event) (lines : List TranscriptLine) (new : Xinu) → IsSound old → IsApart old → Happens old e lines new →
        (GivesAway old e new → ⊥) → IsApart new }
{}

/// An event that gives away what a pool or a stack has leaves an address that is claimed twice.
pub fn giving_away_breaks()
    ensures { (old : Xinu) (e : Event) (lines : List TranscriptLine) (new : Xinu) → IsSound old → Happens old e lines new →
        GivesAway old e new → IsApart new → ⊥ }
{}

/// In a run in which nothing is given away that a pool or a stack has no address comes to be claimed twice.
pub fn runs_keep_apart()
    ensures { (events : List Event) (old : Xinu) (lines : List TranscriptLine) (new : Xinu) (end : End) → IsSound old → IsApart old →
        GivesNothingAway old events → RunsTo old events lines new end → IsApart new }
{}

/// What it means that no address is claimed twice: each has one owner at most, and what has an owner isn't free.
pub fn addresses_have_one_owner()
    ensures stacks { (s : Xinu) → IsApart s → (p q a : ℕ) → p ≢ q → is_in_stack a (process_at s.tables p) ≡ true →
        is_in_stack a (process_at s.tables q) ≡ false }
    ensures pools { (s : Xinu) → IsApart s → (i j a : ℕ) → i ≢ j → is_in_pool a (pool_at s.parts.pools i) ≡ true →
        is_in_pool a (pool_at s.parts.pools j) ≡ false }
    ensures both { (s : Xinu) → IsApart s → (p i a : ℕ) → is_in_stack a (process_at s.tables p) ≡ true →
        is_in_pool a (pool_at s.parts.pools i) ≡ false }
    ensures taken { (s : Xinu) → IsApart s → (p a : ℕ) → is_in_stack a (process_at s.tables p) ≡ true → is_in_free a s.parts.heap ≡ false }
    ensures kept { (s : Xinu) → IsApart s → (i a : ℕ) → is_in_pool a (pool_at s.parts.pools i) ≡ true → is_in_free a s.parts.heap ≡ false }
{}
