//! An entry of the table, and the three writes that change the entries.
//!
//! Each write says by an equation what it leaves of the array; the caller says that the lists stay linked.

ghost use Rattle.std.specs.Prelude.{◌≡◌, ◌<◌, ◌+ℤ◌, ◌≤ℤ◌, pos, negsuc, vec_len};
ghost use Rattle.queue_table.specs.Entries.{next_at, prev_at, key_at};
ghost use Rattle.queue_table.specs.Writes.{put_between, taken_out, shifted};

/// An entry: which entries are after it and ahead of it, and its key.
#[derive(Clone, Copy, PartialEq)]
pub struct Links {
    /// The number of the entry after it.
    pub next: usize,
    /// The number of the entry ahead of it.
    pub prev: usize,
    /// The key: a priority, or in a delta list the difference to the delay ahead of it.
    pub key: i32,
}

/// Puts entry `p` between the entries `before` and `after`.
pub(crate) fn link_between(
    entries: &mut Vec<Links>,
    p: usize,
    before: usize,
    after: usize,
    key: i32,
)
    requires p_in { p < vec_len entries.old }
    requires before_in { before < vec_len entries.old }
    requires after_in { after < vec_len entries.old }
    ensures written { entries.new.items ≡ put_between entries.old.items before p after key }
{
    entries[before].next = p;
    entries[after].prev = p;
    entries[p] = Links {
        next: after,
        prev: before,
        key,
    };
}

/// Ties the neighbours of entry `p` to each other, and `p` to itself.
pub(crate) fn unlink(entries: &mut Vec<Links>, p: usize)
    requires p_in { p < vec_len entries.old }
    requires next_in { next_at entries.old.items p < vec_len entries.old }
    requires prev_in { prev_at entries.old.items p < vec_len entries.old }
    ensures written { entries.new.items ≡ taken_out entries.old.items p }
{
    let Links { next, prev, key } = entries[p];
    entries[prev].next = next;
    entries[next].prev = prev;
    entries[p] = Links {
        next: p,
        prev: p,
        key,
    };
}

/// Adds to the key of entry `at`, if it is one of the processes and no tail.
pub(crate) fn shift_key(entries: &mut Vec<Links>, at: usize, by: i32, processes: usize)
    requires at_in { at < vec_len entries.old }
    requires raised { at < processes → pos 0 ≤ℤ by → (key_at entries.old.items at +ℤ by) ≤ℤ pos 2147483647 }
    requires lowered { at < processes → by ≤ℤ pos 0 → negsuc 2147483647 ≤ℤ (key_at entries.old.items at +ℤ by) }
    ensures written { entries.new.items ≡ shifted entries.old.items at by processes }
{
    if at < processes {
        entries[at].key += by;
    }
}
