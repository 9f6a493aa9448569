//! The checker of an image.

ghost use Rattle.std.specs.Prelude.{◌≡◌, ◌+◌, ◌*◌, ◌≤◌, ◌++◌, ◌∷◌, [], length, IfOk, None};
ghost use Rattle.lfs_check.specs.Geometries.{index_count, IsGeometry};
ghost use Rattle.lfs_check.specs.Checks.{rule_4, rule_5, rule_6, rule_7, free_data_fault, free_index_fault, least, free_data_of, free_index_of, free_data_end, free_index_end, index_numbers, data_numbers};
ghost use Rattle.lfs_check.specs.Fields.{fields_of, directory_header, directory_entries};
ghost use Rattle.lfs_check.specs.Faults.{named, either_fault, IsCheckResult, dir_fault, walks_fault, shape_fault, counted_report, fault, report};

use crate::chain_rules::{free_data_fault, free_index_fault, least};
use crate::faults::{CheckFault, DiskFault, Report, fault_at, first_of_two};
use crate::fields::{Header, dirs_of, read_directory, read_indexes, read_links, read_nexts};
use crate::geometry::{Geometry, data_from, indexes_on};
use crate::meets::count_all;
use crate::parts::Fields;
use crate::rules::{count_fault, file_size_fault, name_fault, size_fault};
use crate::survey::{Survey, add_walk, survey_files};
use crate::walks::{Walk, walk_chain};
use lfs_format::{Entry, Index};
use std::alloc::{AllocError, Global};

/// Checks an image of either version, and says what is on it.
///
/// # Errors
///
/// `Broken` with the lowest rule that the image breaks and for it the lowest block, exactly if it breaks one; `NoMemory` out of
/// memory.
pub fn check(alloc: Global, bytes: &[u8]) -> Result<Report, CheckFault>
    ensures { IsCheckResult (fault bytes.now) (report bytes.now) result }
{
    let dirs = dirs_of(bytes);
    if bytes.len() > 65542 * 512 {
        return Err(CheckFault::Broken(DiskFault { block: 0, rule: 0 }));
    }
    let blocks = (bytes.len() / 512) as u32;
    let geometry = Geometry { dirs, blocks };
    match size_fault(geometry, bytes) {
        Some(block) => Err(CheckFault::Broken(DiskFault { block, rule: 0 })),
        None => check_fields(alloc, geometry, bytes),
    }
}

// Rules 1 to 7, and the report.
fn check_fields(alloc: Global, geometry: Geometry, bytes: &[u8]) -> Result<Report, CheckFault>
    requires geometry { IsGeometry geometry }
    requires whole { 512 * geometry.blocks ≤ length bytes.now }
    ensures { IsCheckResult (shape_fault geometry (fields_of geometry bytes.now) bytes.now) (counted_report geometry (fields_of geometry bytes.now)) result }
{
    let directory = read_directory(alloc, geometry, bytes)?;
    check_parts(alloc, geometry, directory.header, &directory.entries, bytes)
}

// Rules 1 to 7 of a directory, and the report.
fn check_parts(
    alloc: Global,
    geometry: Geometry,
    header: Header,
    entries: &[Entry],
    bytes: &[u8],
) -> Result<Report, CheckFault>
    requires geometry { IsGeometry geometry }
    requires whole { 512 * geometry.blocks ≤ length bytes.now }
    requires header { header ≡ directory_header geometry bytes.now }
    requires entries { entries.now ≡ directory_entries geometry bytes.now }
    requires few { length entries.now ≤ 78 }
    ensures { IsCheckResult (shape_fault geometry (fields_of geometry bytes.now) bytes.now) (counted_report geometry (fields_of geometry bytes.now)) result }
{
    match fault_of_dir(geometry, header, entries, bytes) {
        Some(fault) => Err(CheckFault::Broken(fault)),
        None => check_walks(alloc, geometry, header, entries, bytes),
    }
}

// The fault of rules 1 to 3.
fn fault_of_dir(
    geometry: Geometry,
    header: Header,
    entries: &[Entry],
    bytes: &[u8],
) -> Option<DiskFault>
    requires geometry { IsGeometry geometry }
    requires whole { 512 * geometry.blocks ≤ length bytes.now }
    requires few { length entries.now ≤ 78 }
    ensures { result ≡ dir_fault geometry header entries.now bytes.now }
{
    let two = fault_at(2, count_fault(geometry, header, entries, bytes));
    let three = fault_at(3, file_size_fault(geometry, entries));
    first_of_two(
        fault_at(1, name_fault(geometry, entries)),
        first_of_two(two, three),
    )
}

// Rules 4 to 7, and the report.
fn check_walks(
    alloc: Global,
    geometry: Geometry,
    header: Header,
    entries: &[Entry],
    bytes: &[u8],
) -> Result<Report, CheckFault>
    requires geometry { IsGeometry geometry }
    requires whole { 512 * geometry.blocks ≤ length bytes.now }
    requires header { header ≡ directory_header geometry bytes.now }
    requires entries { entries.now ≡ directory_entries geometry bytes.now }
    requires few { length entries.now ≤ 78 }
    ensures { IsCheckResult (walks_fault geometry (fields_of geometry bytes.now)) (counted_report geometry (fields_of geometry bytes.now)) result }
{
    let indexes = read_indexes(alloc, geometry, bytes)?;
    let links = read_links(alloc, geometry, bytes)?;
    let walked = walk_all(alloc, geometry, header, entries, &indexes, &links)?;
    answered(fault_of_walks(&walked), walked.report)
}

/// What the walks of a disk say.
#[derive(Clone, Copy)]
struct Walked {
    rule_4: Option<u32>,
    rule_5: Option<u32>,
    rule_6: Option<u32>,
    rule_7: Option<u32>,
    report: Report,
}

// Walks all chains of a disk.
fn walk_all(
    alloc: Global,
    geometry: Geometry,
    header: Header,
    entries: &[Entry],
    indexes: &[Index],
    links: &[u32],
) -> Result<Walked, AllocError>
    requires geometry { IsGeometry geometry }
    requires few { length entries.now ≤ 78 }
    requires indexes { length indexes.now ≡ index_count geometry }
    requires links { length links.now ≡ geometry.blocks }
    ensures rule_4 { IfOk result (λ w. w.rule_4 ≡ rule_4 geometry (record { header = header; entries = entries.now; indexes = indexes.now; links = links.now })) }
    ensures rule_5 { IfOk result (λ w. w.rule_5 ≡ rule_5 geometry (record { header = header; entries = entries.now; indexes = indexes.now; links = links.now })) }
    ensures rule_6 { IfOk result (λ w. w.rule_6 ≡ rule_6 geometry (record { header = header; entries = entries.now; indexes = indexes.now; links = links.now })) }
    ensures rule_7 { IfOk result (λ w. w.rule_7 ≡ rule_7 geometry (record { header = header; entries = entries.now; indexes = indexes.now; links = links.now })) }
    ensures report { IfOk result (λ w. w.report ≡ counted_report geometry (record { header = header; entries = entries.now; indexes = indexes.now; links = links.now })) }
{
    let nexts = read_nexts(alloc, indexes)?;
    let free_data = walk_chain(
        alloc,
        links,
        data_from(geometry),
        geometry.blocks,
        geometry.blocks as usize,
        header.free_data,
    )?;
    let free_index = walk_chain(
        alloc,
        &nexts,
        0,
        indexes_on(geometry),
        indexes_on(geometry) as usize,
        header.free_index,
    )?;
    let fields = Fields {
        geometry,
        indexes,
        nexts: nexts.as_slice(),
    };
    let survey = survey_all(
        alloc,
        &fields,
        header,
        entries,
        links,
        &free_data,
        &free_index,
    )?;
    let met = count_all(alloc, geometry, &survey.index_numbers, &survey.data_numbers)?;
    Ok(Walked {
        rule_4: survey.rule_4,
        rule_5: survey.rule_5,
        rule_6: met.rule_6,
        rule_7: met.rule_7,
        report: Report {
            files: header.files,
            free_data: free_data.met.len() as u32,
            free_index: free_index.met.len() as u32,
        },
    })
}

// The walks of all chains of a disk.
fn survey_all(
    alloc: Global,
    fields: &Fields<'_>,
    header: Header,
    entries: &[Entry],
    links: &[u32],
    free_data: &Walk,
    free_index: &Walk,
) -> Result<Survey, AllocError>
    requires few { length entries.now ≤ 78 }
    requires data_met { free_data.now.met.items ≡ free_data_of fields.now.geometry (record { header = header; entries = entries.now; indexes = fields.now.indexes.now; links = links.now }) }
    requires data_end { free_data.now.end ≡ free_data_end fields.now.geometry (record { header = header; entries = entries.now; indexes = fields.now.indexes.now; links = links.now }) }
    requires index_met { free_index.now.met.items ≡ free_index_of fields.now.geometry (record { header = header; entries = entries.now; indexes = fields.now.indexes.now; links = links.now }) }
    requires index_end { free_index.now.end ≡ free_index_end fields.now.geometry (record { header = header; entries = entries.now; indexes = fields.now.indexes.now; links = links.now }) }
    ensures rule_4 { IfOk result (λ s. s.rule_4 ≡ rule_4 fields.now.geometry (record { header = header; entries = entries.now; indexes = fields.now.indexes.now; links = links.now })) }
    ensures rule_5 { IfOk result (λ s. s.rule_5 ≡ rule_5 fields.now.geometry (record { header = header; entries = entries.now; indexes = fields.now.indexes.now; links = links.now })) }
    ensures index_numbers { IfOk result (λ s. s.index_numbers.items ≡ index_numbers fields.now.geometry (record { header = header; entries = entries.now; indexes = fields.now.indexes.now; links = links.now })) }
    ensures data_numbers { IfOk result (λ s. s.data_numbers.items ≡ data_numbers fields.now.geometry (record { header = header; entries = entries.now; indexes = fields.now.indexes.now; links = links.now })) }
{
    let mut survey = begin_survey(alloc, fields.geometry, free_data, free_index)?;
    survey_files(&mut survey, alloc, fields, entries)?;
    Ok(survey)
}

// The survey that begins with the free chains.
fn begin_survey(
    alloc: Global,
    geometry: Geometry,
    free_data: &Walk,
    free_index: &Walk,
) -> Result<Survey, AllocError>
    requires geometry { IsGeometry geometry }
    ensures rule_4 { IfOk result (λ s. s.rule_4 ≡ least (free_data_fault geometry free_data.now.met.items free_data.now.end) (free_index_fault geometry free_index.now.met.items free_index.now.end)) }
    ensures rule_5 { IfOk result (λ s. s.rule_5 ≡ None) }
    ensures index_numbers { IfOk result (λ s. s.index_numbers.items ≡ free_index.now.met.items ++ free_index.now.end ∷ []) }
    ensures data_numbers { IfOk result (λ s. s.data_numbers.items ≡ free_data.now.met.items ++ free_data.now.end ∷ []) }
{
    let data = free_data_fault(geometry, &free_data.met, free_data.end);
    let index = free_index_fault(geometry, &free_index.met, free_index.end);
    let mut index_numbers = Vec::new(alloc);
    add_walk(&mut index_numbers, free_index)?;
    let mut data_numbers = Vec::new(alloc);
    add_walk(&mut data_numbers, free_data)?;
    Ok(Survey {
        rule_4: least(data, index),
        rule_5: None,
        index_numbers,
        data_numbers,
    })
}

// The fault of rules 4 to 7, by what the walks said.
fn fault_of_walks(walked: &Walked) -> Option<DiskFault>
    ensures { result ≡ either_fault (named 4 walked.now.rule_4) (either_fault (named 5 walked.now.rule_5) (either_fault (named 6 walked.now.rule_6) (named 7 walked.now.rule_7))) }
{
    let four = fault_at(4, walked.rule_4);
    let five = fault_at(5, walked.rule_5);
    let six = fault_at(6, walked.rule_6);
    first_of_two(
        four,
        first_of_two(five, first_of_two(six, fault_at(7, walked.rule_7))),
    )
}

// The report, if there is no fault.
fn answered(found: Option<DiskFault>, report: Report) -> Result<Report, CheckFault>
    ensures { IsCheckResult found report result }
{
    match found {
        None => Ok(report),
        Some(fault) => Err(CheckFault::Broken(fault)),
    }
}
