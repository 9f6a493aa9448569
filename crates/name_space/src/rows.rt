//! A mounted prefix: whether it begins a name, and the name with its replacement (book, chapter 21, `namrepl.c`).

ghost use Rattle.std.specs.Prelude.{◌≡◌, ◌↔◌, IsTrue, ◌++◌, length, nat_le, [], is_ok, IfErr, IfOk, None, Some, true};
ghost use Rattle.name_space.specs.Mounted.{mapped_of, row_of};
ghost use Rattle.xinu_model.specs.Names.Constants.{NM_MAXLEN};
ghost use Rattle.xinu_model.specs.Names.Mapping.{fits_row, replaced, short_enough};

use crate::mapping::{MappedName, NoMap};
use crate::texts::Text;
use arrayvec::ArrayVec;
use xinu_base::Dev;

/// A mounted prefix.
#[derive(Clone, Drop)]
pub(crate) struct Row {
    /// What begins a name.
    pub prefix: Text,
    /// What takes its place.
    pub replacement: Text,
    /// The device that gets the name.
    pub device: Dev,
}

impl Default for Row {
    ghost is_default = { λ r. r.prefix ≡ [] };

    fn default() -> Self {
        Row {
            prefix: Text::empty(),
            replacement: Text::empty(),
            device: Dev::at(0),
        }
    }
}

impl Row {
    // Whether another row is equal.
    pub(crate) fn equals(&self, other: &Self) -> bool
        ensures equal { IsTrue result ↔ (self.now ≡ other.now) }
    {
        self.device == other.device
            && self.prefix.equals(&other.prefix)
            && self.replacement.equals(&other.replacement)
    }

    // Whether the prefix begins a name.
    pub(crate) fn fits(&self, name: &[u8]) -> bool
        ensures fits { result ≡ fits_row name.now (row_of self.now) }
    {
        name.starts_with(self.prefix.bytes())
    }

    // A name that the prefix begins, with the replacement in place of the prefix. Refused if and only if it gets too long.
    pub(crate) fn replace(&self, name: &[u8]) -> Result<MappedName, NoMap>
        requires fits { fits_row name.now (row_of self.now) ≡ true }
        ensures replaced { IfOk result (λ m. short_enough (replaced (row_of self.now) name.now) ≡ Some (mapped_of m)) }
        ensures long { IfErr result (λ _. short_enough (replaced (row_of self.now) name.now) ≡ None) }
    {
        let start = self.prefix.bytes().len();
        let name = joined(self.replacement.bytes(), &name[start..])?;
        Ok(MappedName {
            device: self.device,
            name,
        })
    }
}

// Two texts as one; refused if and only if it is longer than a name may be.
pub(crate) fn joined(front: &[u8], rest: &[u8]) -> Result<ArrayVec<u8, 127>, NoMap>
    ensures joined { IfOk result (λ text. text.items ≡ front.now ++ rest.now) }
    ensures short { is_ok result ≡ nat_le (length (front.now ++ rest.now)) NM_MAXLEN }
{
    let mut text = ArrayVec::new();
    if text.try_extend_from_slice(front).is_err() {
        return Err(NoMap);
    }
    if text.try_extend_from_slice(rest).is_err() {
        return Err(NoMap);
    }
    Ok(text)
}
