//! Reads and writes of the console that find all their items, or room for all their bytes, at once.

ghost use Rattle.std.specs.Prelude.{◌≡◌, ◌≤◌, ◌&&◌, ℕ, suc, true, false, length, take, pos};
ghost use Rattle.std.specs.List.{AllByRecursion};
ghost use Rattle.xinu_base.specs.declared.console.Item.{Item};
ghost use Rattle.event_laws.specs.WholeReads.{taken_of, Brings};
ghost use Rattle.event_laws.specs.WholeWrites.{put_of, Puts};
ghost use Rattle.xinu_model.specs.Console.Putting.{TY_OSEM, console_write};
ghost use Rattle.xinu_model.specs.Console.Taking.{TY_ISEM, console_of, console_read, is_cooked, is_end};
ghost use Rattle.xinu_model.specs.Machine.{Xinu};
ghost use Rattle.xinu_model.specs.Memory.{bytes_from, in_ram};
ghost use Rattle.xinu_model.specs.Sound.State.{IsSound};
ghost use Rattle.xinu_model.specs.Tables.{semaphore_at};

/// A read that finds as many tokens as it asks for bytes is answered in its own event. In cooked mode, if none of the items is the end mark,
/// it stores the bytes up to the first newline, with that, and answers how many they are; in another mode it stores all.
pub fn whole_reads_are_lines()
    ensures { (at n : ℕ) (s : Xinu) → IsSound s → suc n ≤ (semaphore_at s.tables TY_ISEM).tokens → in_ram at (suc n) ≡ true →
        AllByRecursion (λ (x : Item). is_cooked (console_of s).mode && is_end x ≡ false) (take (suc n) (console_of s).committed) →
        Brings at (taken_of (is_cooked (console_of s).mode) (take (suc n) (console_of s).committed)) s (console_read at (pos (suc n)) s) }
{}

/// A write that finds a token for each byte that it puts is answered in its own event. All its bytes are put in their order, outside raw mode
/// with a carriage return before each newline, and RAM stays as it is.
pub fn whole_writes_are_put()
    ensures { (at n : ℕ) (s : Xinu) → IsSound s → in_ram at n ≡ true →
        length (put_of (console_of s).mode (bytes_from s.memory at n)) ≤ (semaphore_at s.tables TY_OSEM).tokens →
        Puts n (put_of (console_of s).mode (bytes_from s.memory at n)) s (console_write at (pos n) s) }
{}
