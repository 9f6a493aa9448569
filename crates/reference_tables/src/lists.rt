//! Lists as the definitions read and change them: an entry that isn't there reads as a fixed value, and writing it does nothing. Of lists
//! of processes: who leaves them, and the two insertions, by key and by wake tick.

ghost use Rattle.std.specs.Prelude.{◌≡◌, not, filter, slice_index_or, slice_set, IfOk, int_lt, nat_le, ◌++◌, ◌∷◌, []};
ghost use Rattle.xinu_base.specs.Insert.{ready_insert, sleeper_insert};
ghost use Rattle.xinu_model.specs.Tables.{entries_without, numbers_without};

use xinu_base::{NoMemory, Pid};

/// The entry at a place, or what stands for none.
pub fn get_or<T: Copy>(list: &[T], at: usize, none: T) -> T
    ensures entry { result ≡ slice_index_or list.now at none }
{
    match list.get(at) {
        Some(x) => *x,
        None => none,
    }
}

/// Another entry at a place; nothing if the list doesn't have it.
pub fn set<T: Drop>(list: &mut [T], at: usize, x: T)
    ensures set { list.new ≡ slice_set list.old at x }
{
    if at < list.len() {
        list[at] = x;
    }
}

/// The processes of a list but `p`.
pub fn leave(list: &mut Vec<Pid>, p: Pid)
    ensures without { list.new.items ≡ numbers_without p list.old.items }
{
    list.retain(|x| *x != p);
}

/// The ready list without `p`.
pub fn leave_ready(list: &mut Vec<(Pid, i16)>, p: Pid)
    ensures without { list.new.items ≡ entries_without p list.old.items }
{
    list.retain(|e| e.0 != p);
}

/// The sleepers without `p`.
pub fn leave_sleepers(list: &mut Vec<(Pid, u32)>, p: Pid)
    ensures without { list.new.items ≡ entries_without p list.old.items }
{
    list.retain(|e| e.0 != p);
}

/// `p` joins the ready list, after all keys that aren't less.
#[tactic(auto, using(std::proofs::Common::append_assoc))]
pub fn join_ready(list: &mut Vec<(Pid, i16)>, p: Pid, key: i16) -> Result<(), NoMemory>
    ensures joined { IfOk result (λ _. list.new.items ≡ ready_insert p key list.old.items) }
{
    let behind = split_ready(list, key)?;
    push(list, (p, key))?;
    append(list, &behind)?;
    Ok(())
}

/// `p` joins the sleepers, after all that wake at most as late.
#[tactic(auto, using(std::proofs::Common::append_assoc))]
pub fn join_sleepers(list: &mut Vec<(Pid, u32)>, p: Pid, wake: u32) -> Result<(), NoMemory>
    ensures joined { IfOk result (λ _. list.new.items ≡ sleeper_insert p wake list.old.items) }
{
    let behind = split_sleepers(list, wake)?;
    push(list, (p, wake))?;
    append(list, &behind)?;
    Ok(())
}

// The ready list keeps the keys that aren't less than one; the others are answered.
fn split_ready(list: &mut Vec<(Pid, i16)>, key: i16) -> Result<Vec<(Pid, i16)>, NoMemory>
    ensures before { IfOk result (λ _. list.new.items ≡ filter (λ x. not (int_lt x.1 key)) list.old.items) }
    ensures behind { IfOk result (λ l. l.items ≡ filter (λ x. not (not (int_lt x.1 key))) list.old.items) }
{
    let mut behind = copied(list)?;
    behind.retain(|e| e.1 < key);
    list.retain(|e| e.1 >= key);
    Ok(behind)
}

// The sleepers keep those that wake at most as late as a tick; the others are answered.
fn split_sleepers(list: &mut Vec<(Pid, u32)>, wake: u32) -> Result<Vec<(Pid, u32)>, NoMemory>
    ensures before { IfOk result (λ _. list.new.items ≡ filter (λ x. nat_le x.1 wake) list.old.items) }
    ensures behind { IfOk result (λ l. l.items ≡ filter (λ x. not (nat_le x.1 wake)) list.old.items) }
{
    let mut behind = copied(list)?;
    behind.retain(|e| e.1 > wake);
    list.retain(|e| e.1 <= wake);
    Ok(behind)
}

/// A list with the same entries.
pub fn copied<T: Copy>(list: &Vec<T>) -> Result<Vec<T>, NoMemory>
    ensures copied { IfOk result (λ l. l.items ≡ list.now.items) }
{
    Vec::from_slice(*list.allocator(), list.as_slice()).map_err(|_| NoMemory)
}

/// One entry more, the last.
pub fn push<T: Drop>(list: &mut Vec<T>, x: T) -> Result<(), NoMemory>
    ensures pushed { IfOk result (λ _. list.new.items ≡ list.old.items ++ x ∷ []) }
{
    list.push(x).map_err(|_| NoMemory)
}

/// These entries more, the last.
pub fn append<T: Copy>(list: &mut Vec<T>, more: &[T]) -> Result<(), NoMemory>
    ensures appended { IfOk result (λ _. list.new.items ≡ list.old.items ++ more.now) }
{
    list.extend_from_slice(more).map_err(|_| NoMemory)
}
