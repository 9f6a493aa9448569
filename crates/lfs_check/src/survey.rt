//! What the walks of all files meet.

ghost use Rattle.std.specs.Prelude.{◌≡◌, ℕ, ◌+◌, ◌≤◌, ◌<◌, ◌^◌, ◌++◌, ◌∷◌, [], length, slice_index, IfOk, OnOk};
ghost use Rattle.std.specs.List.{flat_map};
ghost use Rattle.lfs_check.specs.Checks.{least, need_data, met_of, end_of_walk, end_fault, rows_fault, offsets_fault, file_fault_4, file_fault_5, file_index_numbers, file_data_numbers, data_row, lowest_of};
ghost use Rattle.lfs_check.specs.Rules.{entry_is_used};
ghost use Rattle.lfs_check.specs.Clean.{chain_in, data_in};

use crate::chain_rules::{
    data_needed, end_fault, indexes_needed, least, offsets_fault, rows_fault,
};
use crate::geometry::indexes_on;
use crate::parts::Fields;
use crate::rules::entry_is_used;
use crate::walks::{Walk, walk_chain};
use lfs_format::{Entry, Index};
use std::alloc::{AllocError, Global};

/// What walks have met so far, and where they broke rules 4 and 5.
#[derive(Drop)]
pub(crate) struct Survey {
    pub rule_4: Option<u32>,
    pub rule_5: Option<u32>,
    pub index_numbers: Vec<u32>,
    pub data_numbers: Vec<u32>,
}

/// The data blocks of the file of an entry: as many of the numbers in its index blocks as its size needs.
pub fn file_blocks(
    alloc: Global,
    fields: &Fields<'_>,
    entry: &Entry,
) -> Result<Vec<u32>, AllocError>
    ensures { IfOk result (λ v. v.items ≡ data_in fields.now.geometry fields.now.indexes.now entry.now) }
{
    let mut numbers = Vec::new(alloc);
    if entry_is_used(entry) {
        let walk = walk_file(alloc, fields, entry)?;
        add_rows(&mut numbers, fields.indexes, &walk.met)?;
        numbers.truncate(data_needed(entry));
    }
    Ok(numbers)
}

/// The index blocks of the file of an entry.
pub(crate) fn file_chain(
    alloc: Global,
    fields: &Fields<'_>,
    entry: &Entry,
) -> Result<Vec<u32>, AllocError>
    ensures { IfOk result (λ v. v.items ≡ chain_in fields.now.geometry fields.now.indexes.now entry.now) }
{
    if entry_is_used(entry) {
        let walk = walk_file(alloc, fields, entry)?;
        let Walk { met, end: _ } = walk;
        Ok(met)
    } else {
        Ok(Vec::new(alloc))
    }
}

/// Walks the index blocks of the file of an entry.
pub(crate) fn walk_file(
    alloc: Global,
    fields: &Fields<'_>,
    entry: &Entry,
) -> Result<Walk, AllocError>
    ensures met { IfOk result (λ w. w.met.items ≡ met_of fields.now.geometry fields.now.indexes.now entry.now) }
    ensures end { IfOk result (λ w. w.end ≡ end_of_walk fields.now.geometry fields.now.indexes.now entry.now) }
    ensures below { IfOk result (λ w. (j : ℕ) → j < length w.met.items → slice_index w.met.items j < length fields.now.indexes.now) }
    ensures few { IfOk result (λ w. length w.met.items ≤ 2 ^ 20) }
{
    walk_chain(
        alloc,
        fields.nexts,
        0,
        indexes_on(fields.geometry),
        indexes_needed(entry),
        entry.first,
    )
}

// Appends what a walk met and the number that ended it.
pub(crate) fn add_walk(numbers: &mut Vec<u32>, walk: &Walk) -> Result<(), AllocError>
    ensures { OnOk result (numbers.new.items ≡ numbers.old.items ++ (walk.now.met.items ++ walk.now.end ∷ [])) }
{
    numbers.extend_from_slice(&walk.met)?;
    numbers.push(walk.end)?;
    Ok(())
}

// Appends the data numbers of an index block.
fn add_row(numbers: &mut Vec<u32>, indexes: &[Index], i: u32) -> Result<(), AllocError>
    requires below { i < length indexes.now }
    ensures { OnOk result (numbers.new.items ≡ numbers.old.items ++ data_row indexes.now i) }
{
    let index = indexes[i as usize];
    numbers.extend_from_slice(&index.blocks)?;
    Ok(())
}

// Appends the data numbers of index blocks.
fn add_rows(numbers: &mut Vec<u32>, indexes: &[Index], met: &[u32]) -> Result<(), AllocError>
    requires below { (j : ℕ) → j < length met.now → slice_index met.now j < length indexes.now }
    ensures { OnOk result (numbers.new.items ≡ numbers.old.items ++ flat_map (data_row indexes.now) met.now) }
{
    for j in 0..met.len() {
        add_row(numbers, indexes, met[j])?;
    }
    Ok(())
}

// The file of a used entry.
fn survey_walk(
    survey: &mut Survey,
    fields: &Fields<'_>,
    k: usize,
    entry: &Entry,
    walk: &Walk,
) -> Result<(), AllocError>
    requires few { k < 78 }
    requires short { length walk.now.met.items ≤ 2 ^ 20 }
    requires below { (j : ℕ) → j < length walk.now.met.items → slice_index walk.now.met.items j < length fields.now.indexes.now }
    ensures rule_4 { OnOk result (survey.new.rule_4 ≡ least survey.old.rule_4 (least (end_fault fields.now.geometry k entry.now walk.now.met.items walk.now.end) (rows_fault fields.now.geometry fields.now.indexes.now (need_data entry.now) walk.now.met.items))) }
    ensures rule_5 { OnOk result (survey.new.rule_5 ≡ least survey.old.rule_5 (offsets_fault fields.now.geometry fields.now.indexes.now 0 walk.now.met.items)) }
    ensures index_numbers { OnOk result (survey.new.index_numbers.items ≡ survey.old.index_numbers.items ++ (walk.now.met.items ++ walk.now.end ∷ [])) }
    ensures data_numbers { OnOk result (survey.new.data_numbers.items ≡ survey.old.data_numbers.items ++ flat_map (data_row fields.now.indexes.now) walk.now.met.items) }
{
    let end = end_fault(fields.geometry, k, entry, &walk.met, walk.end);
    let rows = rows_fault(
        fields.geometry,
        fields.indexes,
        data_needed(entry),
        &walk.met,
    );
    survey.rule_4 = least(survey.rule_4, least(end, rows));
    survey.rule_5 = least(
        survey.rule_5,
        offsets_fault(fields.geometry, fields.indexes, &walk.met),
    );
    add_walk(&mut survey.index_numbers, walk)?;
    add_rows(&mut survey.data_numbers, fields.indexes, &walk.met)?;
    Ok(())
}

// The file of an entry, if it is used.
#[tactic(auto, using(crate::proofs::Surveys::least_none, crate::proofs::Surveys::append_none))]
fn survey_file(
    survey: &mut Survey,
    alloc: Global,
    fields: &Fields<'_>,
    k: usize,
    entry: &Entry,
) -> Result<(), AllocError>
    requires few { k < 78 }
    ensures rule_4 { OnOk result (survey.new.rule_4 ≡ least survey.old.rule_4 (file_fault_4 fields.now.geometry fields.now.indexes.now k entry.now)) }
    ensures rule_5 { OnOk result (survey.new.rule_5 ≡ least survey.old.rule_5 (file_fault_5 fields.now.geometry fields.now.indexes.now k entry.now)) }
    ensures index_numbers { OnOk result (survey.new.index_numbers.items ≡ survey.old.index_numbers.items ++ file_index_numbers fields.now.geometry fields.now.indexes.now entry.now) }
    ensures data_numbers { OnOk result (survey.new.data_numbers.items ≡ survey.old.data_numbers.items ++ file_data_numbers fields.now.geometry fields.now.indexes.now entry.now) }
{
    if entry_is_used(entry) {
        let walk = walk_file(alloc, fields, entry)?;
        survey_walk(survey, fields, k, entry, &walk)?;
    }
    Ok(())
}

/// The files of all entries.
pub(crate) fn survey_files(
    survey: &mut Survey,
    alloc: Global,
    fields: &Fields<'_>,
    entries: &[Entry],
) -> Result<(), AllocError>
    requires few { length entries.now ≤ 78 }
    ensures rule_4 { OnOk result (survey.new.rule_4 ≡ least survey.old.rule_4 (lowest_of (file_fault_4 fields.now.geometry fields.now.indexes.now) 0 entries.now)) }
    ensures rule_5 { OnOk result (survey.new.rule_5 ≡ least survey.old.rule_5 (lowest_of (file_fault_5 fields.now.geometry fields.now.indexes.now) 0 entries.now)) }
    ensures index_numbers { OnOk result (survey.new.index_numbers.items ≡ survey.old.index_numbers.items ++ flat_map (file_index_numbers fields.now.geometry fields.now.indexes.now) entries.now) }
    ensures data_numbers { OnOk result (survey.new.data_numbers.items ≡ survey.old.data_numbers.items ++ flat_map (file_data_numbers fields.now.geometry fields.now.indexes.now) entries.now) }
{
    for k in 0..entries.len() {
        survey_file(survey, alloc, fields, k, &entries[k])?;
    }
    Ok(())
}
