//! Soundness: the machine starts in a sound state, on given disks too, and each event and each run keeps it so. In such a state a free
//! place holds its fixed value, and who goes on with a call on a device finds what it waited for.

ghost use Rattle.std.specs.Prelude.{◌≡◌, ◌<◌, length, List, ℕ, ℤ, true, Option, None, IsSome, slice_index_or};
ghost use Rattle.xinu_base.specs.Constants.{NPROC};
ghost use Rattle.xinu_base.specs.declared.events.End.{End};
ghost use Rattle.xinu_base.specs.declared.events.Event.{Event};
ghost use Rattle.xinu_base.specs.declared.lines.TranscriptLine.{TranscriptLine};
ghost use Rattle.part_laws.specs.GivenDisks.{AreSoundDisks};
ghost use Rattle.xinu_model.specs.Boot.{Loaded, Boots, Disks, first_disks, boot, boot_on};
ghost use Rattle.xinu_base.specs.declared.processes.Rest.TheVariants.{Disk, GetBuf};
ghost use Rattle.xinu_model.specs.Console.Constants.{TY_OBUFLEN};
ghost use Rattle.xinu_model.specs.Console.Taking.{console_of};
ghost use Rattle.xinu_model.specs.Events.{Happens, effect_of};
ghost use Rattle.xinu_model.specs.Machine.{Xinu, no_hart};
ghost use Rattle.xinu_model.specs.Pools.Buffers.{pool_at};
ghost use Rattle.xinu_model.specs.Runs.{RunsTo};
ghost use Rattle.xinu_base.specs.declared.processes.State.TheVariants.{Free};
ghost use Rattle.xinu_model.specs.Sound.State.{IsSound};
ghost use Rattle.xinu_model.specs.Sound.Tables.{asks_input, asks_output};
ghost use Rattle.xinu_model.specs.Tables.{message_at, no_process, no_semaphore, process_at, semaphore_at, state_at};

/// The state in which the machine starts is sound.
pub fn boot_is_sound()
    ensures { (images : List Loaded) (start : Xinu) → length images < NPROC → boot images ≡ Boots start → IsSound start }
{}

/// So is that on disks that are given, if their blocks are whole and their files sound. On those that the machine has if it is given none it
/// starts as it does without.
pub fn boot_on_disks_is_sound()
    ensures given { (disks : Disks) (images : List Loaded) (start : Xinu) → length images < NPROC → AreSoundDisks disks →
        boot_on disks images ≡ Boots start → IsSound start }
    ensures first { (images : List Loaded) (start : Xinu) → boot images ≡ Boots start → boot_on first_disks images ≡ Boots start }
{}

/// Each event keeps a state sound, whatever is chosen in it.
pub fn events_keep_sound()
    ensures { (old : Xinu) (e : Event) (lines : List TranscriptLine) (new : Xinu) → IsSound old → Happens old e lines new → IsSound new }
{}

/// The same under any choice, whether it is allowed or not.
pub fn all_events_keep_sound()
    ensures { (s : Xinu) (e : Event) (choice : ℕ) → IsSound s → IsSound (effect_of s e choice).state }
{}

/// Each run keeps a state sound.
pub fn runs_keep_sound()
    ensures { (events : List Event) (old : Xinu) (lines : List TranscriptLine) (new : Xinu) (end : End) → IsSound old →
        RunsTo old events lines new end → IsSound new }
{}

/// What is free holds what it held at the start: a process number its fixed entry, no message and its registers, a semaphore no token and no waiter.
pub fn free_places_are_fixed()
    ensures processes { (s : Xinu) (p : ℕ) → IsSound s → state_at s.tables p ≡ Free →
        (process_at s.tables p ≡ no_process) × (message_at s.tables p ≡ None) }
    ensures registers { (s : Xinu) (p : ℕ) → IsSound s → state_at s.tables p ≡ Free → slice_index_or s.harts p no_hart ≡ no_hart }
    ensures semaphores { (s : Xinu) (sem : ℕ) → IsSound s → (semaphore_at s.tables sem).owner ≡ None →
        semaphore_at s.tables sem ≡ no_semaphore }
{}

/// Who goes on with a call on a device finds what it waited for: an item of the console, room for a byte, or the reply of its request. So does
/// who waited for a buffer of a pool.
pub fn what_was_waited_for_is_there()
    ensures item { (s : Xinu) → IsSound s → asks_input (process_at s.tables s.tables.current).rest ≡ true →
        0 < length (console_of s).committed }
    ensures room { (s : Xinu) → IsSound s → asks_output (process_at s.tables s.tables.current).rest ≡ true →
        length (console_of s).output < TY_OBUFLEN }
    ensures reply { (reply : Option ℤ) (s : Xinu) → IsSound s → (process_at s.tables s.tables.current).rest ≡ Disk reply → IsSome reply }
    ensures buffer { (i : ℕ) (s : Xinu) → IsSound s → (process_at s.tables s.tables.current).rest ≡ GetBuf i →
        0 < length (pool_at s.parts.pools i).free }
{}
