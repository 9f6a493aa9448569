//! The mounted prefixes, and what they make of a name (book, chapter 21, `mount.c`, `nammap.c`).

ghost use Rattle.std.specs.Prelude.{◌≡◌, ◌↔◌, IsTrue, [], IfErr, IfOk, None, Some, is_some, unwrap_or};
ghost use Rattle.name_space.specs.Mounted.{mapped_of};
ghost use Rattle.xinu_model.specs.Names.Mapping.{map_name, replaced_once};
ghost use Rattle.xinu_model.specs.Names.Mounting.{mounted};

use crate::mapping::{MappedName, NoMap};
use crate::rows::{Row, joined};
use crate::texts::Text;
use arrayvec::ArrayVec;
use std::marker::Model;
use xinu_base::Dev;

// The most bytes of a prefix.
const NM_PRELEN: usize = 31;

// The most bytes of what takes its place.
const NM_REPLLEN: usize = 31;

// The most times that a name's prefix is replaced.
const NM_MAXMAPS: u32 = 40;

// The number of the device that maps names.
const NAMESPACE: usize = 1;

/// The mounted prefixes, at most 40, in the order in which they were mounted. A clone is equal.
#[derive(Clone, Drop)]
pub struct Names {
    rows: ArrayVec<Row, 40>,
}

impl Model for Names {
    ghost use Rattle.std.specs.Prelude.{List, map};
    ghost use Rattle.name_space.specs.Mounted.{row_of};
    ghost use Rattle.xinu_model.specs.Names.Mounting.{NameRow};

    ghost Value = { List NameRow };

    ghost view = { λ n. map row_of n.rows.items };
}

impl Names {
    /// No prefix is mounted. The rows are part of the value, so there is always room for them.
    pub fn new() -> Self
        ensures starts { result ≡ [] }
    {
        Names {
            rows: ArrayVec::new(),
        }
    }

    /// Whether the same prefixes are mounted in another name space, in the same order.
    pub fn equals(&self, other: &Self) -> bool
        ensures equal { IsTrue result ↔ (self.now ≡ other.now) }
    {
        are_equal(self.rows.as_slice(), other.rows.as_slice())
    }

    /// Mounts a prefix, with what takes its place in a name and the device that gets the name. `false`, and nothing changes, if and
    /// only if 40 are mounted or a text has more than 31 bytes.
    pub fn mount(&mut self, prefix: &[u8], replacement: &[u8], device: Dev) -> bool
        ensures answer { result ≡ is_some (mounted (record { prefix = prefix.now; replacement = replacement.now; device = device }) self.old) }
        ensures rows { self.new ≡ unwrap_or (mounted (record { prefix = prefix.now; replacement = replacement.now; device = device }) self.old) self.old }
    {
        if self.rows.is_full() {
            return false;
        }
        if prefix.len() > NM_PRELEN {
            return false;
        }
        if replacement.len() > NM_REPLLEN {
            return false;
        }
        self.rows.push(Row {
            prefix: Text::new(prefix),
            replacement: Text::new(replacement),
            device,
        });
        true
    }

    /// What a name is mapped to: the first prefix that begins it is replaced, up to 40 times, until the device isn't the name space.
    ///
    /// # Errors
    ///
    /// `NoMap` if and only if no prefix begins a name that is to be replaced, a name has more than 127 bytes, or a 41st replacement
    /// would be needed.
    #[tactic(auto, using(xinu_model::proofs::NameTimes::one_made, xinu_model::proofs::NameTimes::none_needed, xinu_model::proofs::NameTimes::nothing_left))]
    pub fn map(&self, name: &[u8]) -> Result<MappedName, NoMap>
        ensures mapped { IfOk result (λ m. map_name self.now name.now ≡ Some (mapped_of m)) }
        ensures unmapped { IfErr result (λ _. map_name self.now name.now ≡ None) }
    {
        let mut text = joined(&[], name)?;
        let mut left = NM_MAXMAPS;
        while left > 0 {
            let MappedName { device, name } = self.replace_once(text.as_slice())?;
            if device.index() != NAMESPACE {
                return Ok(MappedName { device, name });
            }
            text = name;
            left -= 1;
        }
        Err(NoMap)
    }

    // The name by the first row that fits it.
    #[tactic(auto, using(crate::proofs::Fitting::find_later, crate::proofs::Fitting::find_here))]
    fn replace_once(&self, name: &[u8]) -> Result<MappedName, NoMap>
        ensures replaced { IfOk result (λ m. replaced_once self.now name.now ≡ Some (mapped_of m)) }
        ensures missing { IfErr result (λ _. replaced_once self.now name.now ≡ None) }
    {
        for row in self.rows.as_slice() {
            if row.fits(name) {
                return row.replace(name);
            }
        }
        Err(NoMap)
    }
}

// Whether there are as many rows here as there, each equal to the one at its place.
fn are_equal(rows: &[Row], others: &[Row]) -> bool
    ensures equal { IsTrue result ↔ (rows.now ≡ others.now) }
{
    if rows.len() != others.len() {
        return false;
    }
    for k in 0..rows.len() {
        let row = &rows[k];
        if !row.equals(&others[k]) {
            return false;
        }
    }
    true
}
