//! The table of semaphores: whose each is, and a signed count (book, chapter 7, `semcreate.c`, `semdelete.c`, `semcount.c`).
//!
//! It depends on nothing else of the crate. A count above 0 says how many tokens there are, one below 0 how many processes wait.

ghost use Rattle.std.specs.Prelude.{◌≡◌, ◌↔◌, IsTrue, ◌≢◌, ◌<◌, ◌≤◌, ◌-◌, ◌+ℤ◌, ◌-ℤ◌, ◌≤ℤ◌, ℕ, List, [], Option, None, IfOk, IfErr, IfSome, IfNone, Some, int_lt, pos, negsuc, false, not, is_some, replicate};
ghost use Rattle.std.specs.List.{count_by, find};
ghost use Rattle.process_core.specs.Starts.{first_beside};
ghost use Rattle.process_core.specs.Tables.{ProcessTable, tables_of};
ghost use Rattle.queue_table.specs.Lists.{Entry, list_at};
ghost use Rattle.queue_table.specs.Table as table;
ghost use Rattle.xinu_model.specs.Boot.{null_tables};
ghost use Rattle.xinu_model.specs.Searches.{numbers_from};
ghost use Rattle.xinu_model.specs.Semaphores.Counts.{count_of, free_semaphore, most_tokens, with_semaphore};
ghost use Rattle.xinu_model.specs.Tables.{no_semaphore, semaphore_at};

use queue_table::Lists;
use std::alloc::Global;
use std::marker::Model;
use xinu_base::{NoMemory, Owner, Sem};

/// What is kept of a semaphore.
#[derive(Clone, Copy, PartialEq, Eq)]
pub struct SemaphoreEntry {
    /// Whose it is, if it is in use.
    pub owner: Option<Owner>,
    /// Its tokens, or the number of its waiters as a negative number.
    pub count: i32,
}

/// The semaphores: owner and count of each, and the last number given. A clone is equal.
#[derive(Clone, Drop)]
pub struct Sems {
    // The entries, by number.
    pub(crate) entries: [SemaphoreEntry; 128],
    // The last number given.
    pub(crate) last: Sem,
}

impl Model for Sems {
    ghost use Rattle.semaphores.specs.Counts.{SemaphoreTable};

    ghost Value = { SemaphoreTable };

    ghost view = { λ s. record { entries = s.entries; last_semaphore = s.last } };
}

impl Sems {
    ghost use Rattle.semaphores.specs.Counts.{Counts, SemaphoreTable, beside, entry_at, kernel_semaphores, no_entry, number_for, two_numbers, with_count, with_entry, with_made, with_made_entry, with_two};

    /// Semaphores 0 to 3, which are the kernel's: console input, console output with 64 tokens, the callers of the raw disk and
    /// those of the file system. They are those of the abstract machine's start, and fit new lists. The table is part of the value, so
    /// there is always room for it, and the answer is never `NoMemory`.
    pub fn new(_alloc: Global) -> Result<Self, NoMemory>
        ensures starts { IfOk result (λ s. s ≡ kernel_semaphores) }
        ensures never { IfErr result (λ _. ⊥) }
        ensures beside { IfOk result (λ s. beside s null_tables.messages 0 ≡ first_beside) }
        ensures counts { IfOk result (λ s. Counts (replicate 130 []) s.entries) }
    {
        Ok(Sems::of_kernel())
    }

    /// Whether another table is equal: the same owner and count of each semaphore, and the same last number given.
    pub fn equals(&self, other: &Self) -> bool
        ensures equal { IsTrue result ↔ (self.now ≡ other.now) }
    {
        self.last == other.last && self.entries == other.entries
    }

    /// A new semaphore with this count. Its number is the first free one after the last number given, and then from 0 on. `None`, and
    /// nothing changes, if and only if the count is negative or no number is free.
    pub fn create(&mut self, owner: Owner, count: i32) -> Option<Sem>
        ensures found { (ls : List (List Entry)) (s : ProcessTable) (m : List (Option ℕ)) (ticks : ℕ) →
            result ≡ number_for count (tables_of ls s (beside self.old m ticks)) }
        ensures free { IfSome result (λ sem. (entry_at self.old.entries sem).owner ≡ None) }
        ensures full { IfNone result (pos 0 ≤ℤ count → (sem : ℕ) → sem < 128 → (entry_at self.old.entries sem).owner ≢ None) }
        ensures sems { self.new ≡ with_made_entry result owner count self.old }
        ensures made { (ls : List (List Entry)) (s : ProcessTable) (m : List (Option ℕ)) (ticks : ℕ) → Counts ls self.old.entries →
            tables_of ls s (beside self.new m ticks) ≡ with_made result owner count (tables_of ls s (beside self.old m ticks)) }
        ensures counts { (ls : List (List Entry)) → Counts ls self.old.entries → Counts ls self.new.entries }
    {
        if count < 0 {
            return None;
        }
        match self.place_free() {
            Some(sem) => {
                self.set_entry(
                    sem,
                    SemaphoreEntry {
                        owner: Some(owner),
                        count,
                    },
                );
                self.set_last(sem);
                Some(sem)
            }
            None => None,
        }
    }

    /// Two new semaphores of one owner, the first with this count and the second with no tokens. `None`, and nothing changes, if and
    /// only if the count is negative or fewer than two numbers are free.
    pub fn create_two(&mut self, owner: &Owner, count: i32) -> Option<(Sem, Sem)>
        ensures found { (ls : List (List Entry)) (s : ProcessTable) (m : List (Option ℕ)) (ticks : ℕ) → Counts ls self.old.entries →
            result ≡ two_numbers owner.now count (tables_of ls s (beside self.old m ticks)) }
        ensures made { (ls : List (List Entry)) (s : ProcessTable) (m : List (Option ℕ)) (ticks : ℕ) → Counts ls self.old.entries →
            tables_of ls s (beside self.new m ticks) ≡ with_two result owner.now count (tables_of ls s (beside self.old m ticks)) }
        ensures counts { (ls : List (List Entry)) → Counts ls self.old.entries → Counts ls self.new.entries }
    {
        let last = self.last_given();
        let first = self.create(*owner, count)?;
        let second = self.create_second(*owner, first, last)?;
        Some((first, second))
    }

    /// How many numbers are free.
    pub fn free_count(&self) -> usize
        ensures count { result ≡ count_by (λ e. not (is_some e.owner)) self.now.entries }
    {
        count_free(&self.entries)
    }

    /// Whose `sem` is. `None` if and only if it is free.
    pub fn owner_of(&self, sem: Sem) -> Option<Owner>
        ensures owner { (ls : List (List Entry)) (s : ProcessTable) (m : List (Option ℕ)) (ticks : ℕ) →
            result ≡ (semaphore_at (tables_of ls s (beside self.now m ticks)) sem).owner }
        ensures entry { result ≡ (entry_at self.now.entries sem).owner }
        ensures within { sem < 128 }
    {
        self.entry_of(sem).owner
    }

    /// The tokens of `sem` less its waiters.
    pub fn count(&self, lists: &Lists, sem: Sem) -> i32
        requires counts { Counts (table.lists lists.now) self.now.entries }
        ensures count { (s : ProcessTable) (m : List (Option ℕ)) (ticks : ℕ) →
            result ≡ count_of (semaphore_at (tables_of (table.lists lists.now) s (beside self.now m ticks)) sem) }
        ensures entry { result ≡ (entry_at self.now.entries sem).count }
        ensures within { sem < 128 }
    {
        self.entry_of(sem).count
    }

    /// Whether n signals of `sem` leave its count within the greatest, 2147483647.
    pub fn has_room(&self, lists: &Lists, sem: Sem, n: u32) -> bool
        requires counts { Counts (table.lists lists.now) self.now.entries }
        ensures room { (s : ProcessTable) (m : List (Option ℕ)) (ticks : ℕ) →
            result ≡ (let x = semaphore_at (tables_of (table.lists lists.now) s (beside self.now m ticks)) sem in
            not (int_lt most_tokens (count_of x +ℤ pos n))) }
        ensures entry { result ≡ not (int_lt most_tokens ((entry_at self.now.entries sem).count +ℤ pos n)) }
    {
        stays_within(self.count(lists, sem), n)
    }

    /// Gives up `sem`, on which nobody waits: its number is free then.
    pub fn delete(&mut self, lists: &Lists, sem: Sem)
        requires empty { list_at (table.lists lists.now) sem ≡ [] }
        requires counts { Counts (table.lists lists.now) self.old.entries }
        ensures sems { self.new ≡ with_entry sem no_entry self.old }
        ensures deleted { (s : ProcessTable) (m : List (Option ℕ)) (ticks : ℕ) →
            tables_of (table.lists lists.now) s (beside self.new m ticks) ≡
            with_semaphore sem no_semaphore (tables_of (table.lists lists.now) s (beside self.old m ticks)) }
        ensures counts { Counts (table.lists lists.now) self.new.entries }
    {
        self.set_entry(sem, free_entry());
    }

    // The semaphores of the kernel.
    fn of_kernel() -> Self
        ensures starts { result ≡ kernel_semaphores }
    {
        let mut entries = [free_entry(); 128];
        entries[0] = device_entry(0);
        entries[1] = device_entry(64);
        entries[2] = device_entry(0);
        entries[3] = device_entry(0);
        Sems {
            entries,
            last: Sem::at(3),
        }
    }

    // The first free number after the last number given, and then from 0 on.
    fn place_free(&self) -> Option<Sem>
        ensures found { (ls : List (List Entry)) (s : ProcessTable) (m : List (Option ℕ)) (ticks : ℕ) →
            result ≡ free_semaphore (tables_of ls s (beside self.now m ticks)) }
        ensures free { IfSome result (λ sem. (entry_at self.now.entries sem).owner ≡ None) }
        ensures full { IfNone result ((sem : ℕ) → sem < 128 → (entry_at self.now.entries sem).owner ≢ None) }
        ensures within { IfSome result (λ sem. sem < 128) }
    {
        let first = self.last.index() + 1;
        match self.free_within(first, 128) {
            Some(sem) => Some(sem),
            None => self.free_within(0, first),
        }
    }

    // The first free number from one on, below an end.
    fn free_within(&self, from: usize, end: usize) -> Option<Sem>
        requires end_in { end ≤ 128 }
        ensures first { result ≡ find (λ sem. not (is_some (entry_at self.now.entries sem).owner)) (numbers_from from (end - from)) }
    {
        for number in from..end {
            let sem = Sem::at(number);
            if self.is_free(sem) {
                return Some(sem);
            }
        }
        None
    }

    // The entry of `sem`.
    fn entry_of(&self, sem: Sem) -> SemaphoreEntry
        ensures entry { result ≡ entry_at self.now.entries sem }
        ensures within { sem < 128 }
    {
        self.entries[sem.index()]
    }

    // Whether the number of `sem` is free.
    fn is_free(&self, sem: Sem) -> bool
        ensures free { result ≡ not (is_some (entry_at self.now.entries sem).owner) }
    {
        self.entries[sem.index()].owner.is_none()
    }

    // Another entry of `sem`.
    fn set_entry(&mut self, sem: Sem, entry: SemaphoreEntry)
        ensures sems { self.new ≡ with_entry sem entry self.old }
        ensures within { sem < 128 }
    {
        self.entries[sem.index()] = entry;
    }

    // The last number given.
    fn last_given(&self) -> Sem
        ensures last { result ≡ self.now.last_semaphore }
    {
        self.last
    }

    // A semaphore with no tokens after `first`, which was made just now. `None` if and only if no number is free; then `first` is free
    // again, and this is the last number given.
    fn create_second(&mut self, owner: Owner, first: Sem, last: Sem) -> Option<Sem>
        ensures found { (ls : List (List Entry)) (s : ProcessTable) (m : List (Option ℕ)) (ticks : ℕ) →
            result ≡ free_semaphore (tables_of ls s (beside self.old m ticks)) }
        ensures made { IfSome result (λ sem. (ls : List (List Entry)) (s : ProcessTable) (m : List (Option ℕ)) (ticks : ℕ) →
            Counts ls self.old.entries →
            tables_of ls s (beside self.new m ticks) ≡ with_made (Some sem) owner (pos 0) (tables_of ls s (beside self.old m ticks))) }
        ensures counts { IfSome result (λ _. (ls : List (List Entry)) → Counts ls self.old.entries → Counts ls self.new.entries) }
        ensures undone { IfNone result (self.new ≡ record (with_entry first no_entry self.old) { last_semaphore = last }) }
    {
        match self.create(owner, 0) {
            Some(second) => Some(second),
            None => {
                self.forget(first, last);
                None
            }
        }
    }

    // The number of `sem` is free again, and this is the last number given.
    fn forget(&mut self, sem: Sem, last: Sem)
        ensures sems { self.new ≡ record (with_entry sem no_entry self.old) { last_semaphore = last } }
    {
        self.set_entry(sem, free_entry());
        self.set_last(last);
    }

    // The last number given.
    fn set_last(&mut self, sem: Sem)
        ensures sems { self.new ≡ record self.old { last_semaphore = sem } }
    {
        self.last = sem;
    }

    /// Whether the count of `sem` is above 0.
    pub(crate) fn has_token(&self, sem: Sem) -> bool
        ensures above { result ≡ int_lt (pos 0) (entry_at self.now.entries sem).count }
        ensures within { sem < 128 }
    {
        self.entries[sem.index()].count > 0
    }

    /// Whether the count of `sem` is below the greatest.
    pub(crate) fn is_below(&self, sem: Sem) -> bool
        ensures below { result ≡ int_lt (entry_at self.now.entries sem).count most_tokens }
        ensures within { sem < 128 }
    {
        self.entries[sem.index()].count < i32::MAX
    }

    /// Another count of `sem`.
    pub(crate) fn set_count(&mut self, sem: Sem, count: i32)
        ensures sems { self.new ≡ with_count sem count self.old }
        ensures within { sem < 128 }
    {
        self.entries[sem.index()].count = count;
    }

    /// Makes the count of `sem` less by 1.
    pub(crate) fn lower(&mut self, sem: Sem)
        requires least { negsuc 2147483646 ≤ℤ (entry_at self.old.entries sem).count }
        ensures sems { self.new ≡ with_count sem ((entry_at self.old.entries sem).count -ℤ pos 1) self.old }
    {
        self.entries[sem.index()].count -= 1;
    }

    /// Makes the count of `sem` greater by n.
    pub(crate) fn raise(&mut self, sem: Sem, n: u32)
        requires signed { n ≤ 2147483647 }
        requires room { int_lt most_tokens ((entry_at self.old.entries sem).count +ℤ pos n) ≡ false }
        ensures sems { self.new ≡ with_count sem ((entry_at self.old.entries sem).count +ℤ pos n) self.old }
        ensures within { sem < 128 }
    {
        self.entries[sem.index()].count += n as i32;
    }
}

// What is at a free number.
fn free_entry() -> SemaphoreEntry
    ensures entry { result ≡ record { owner = None; count = pos 0 } }
{
    SemaphoreEntry {
        owner: None,
        count: 0,
    }
}

// A semaphore of the kernel's.
fn device_entry(count: i32) -> SemaphoreEntry
    ensures entry { result ≡ record { owner = Some Owner.Device; count = count } }
{
    SemaphoreEntry {
        owner: Some(Owner::Device),
        count,
    }
}

// Whether a count stays within the greatest if it rises by n.
fn stays_within(count: i32, n: u32) -> bool
    ensures within { result ≡ not (int_lt most_tokens (count +ℤ pos n)) }
{
    i64::from(count) + i64::from(n) <= i64::from(i32::MAX)
}

// How many of these are free.
fn count_free(entries: &[SemaphoreEntry]) -> usize
    ensures count { result ≡ count_by (λ e. not (is_some e.owner)) entries.now }
{
    let mut count = 0;
    for entry in entries {
        if entry.owner.is_none() {
            count += 1;
        }
    }
    count
}
