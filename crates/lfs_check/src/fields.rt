//! The fields of an image, in both versions.

ghost use Rattle.std.specs.Prelude.{◌≡◌, ◌+◌, ◌*◌, ◌≤◌, ◌<◌, length, drop, IfOk};
ghost use Rattle.lfs_format.specs.Words.{word_of};
ghost use Rattle.lfs_check.specs.Geometries.{index_count, IsGeometry};
ghost use Rattle.lfs_check.specs.Checks.{nexts_of};
ghost use Rattle.lfs_check.specs.Rules.{block_in};
ghost use Rattle.lfs_check.specs.Fields.{dirs_of, widened, directory_header, directory_entries, entries_1, entries_2, index_in_bytes, link_in_bytes, numbered_values};

use crate::geometry::{Geometry, block_of_index, indexes_on};
use byteorder::{ByteOrder, LittleEndian};
use lfs_format::{Entry, Entry1, Index, index_from, read_dir, read_dir_1};
use std::alloc::{AllocError, Global};

/// The words before the entries of a directory: the heads of both free chains, and the number of files.
#[derive(Clone, Copy)]
pub struct Header {
    pub free_data: u32,
    pub free_index: u32,
    pub files: u32,
}

/// The directory of an image: its counts, and the entries of all its blocks with names of 28 bytes.
#[derive(Drop)]
pub struct Directory {
    pub header: Header,
    pub entries: Vec<Entry>,
}

/// How many directory blocks an image has: six in version 2, else one.
pub fn dirs_of(bytes: &[u8]) -> u32
    ensures { result ≡ dirs_of bytes.now }
{
    if bytes.len() % 512 == 0 && bytes.len() >= 4096 && version_in(bytes) == 2 {
        6
    } else {
        1
    }
}

/// The directory of an image: its counts and its entries, at most 78. The image has all the blocks of the disk.
pub fn read_directory(
    alloc: Global,
    geometry: Geometry,
    bytes: &[u8],
) -> Result<Directory, AllocError>
    requires geometry { IsGeometry geometry }
    requires whole { 512 * geometry.blocks ≤ length bytes.now }
    ensures header { IfOk result (λ d. d.header ≡ directory_header geometry bytes.now) }
    ensures entries { IfOk result (λ d. d.entries.items ≡ directory_entries geometry bytes.now) }
    ensures few { IfOk result (λ d. length d.entries.items ≤ 78) }
{
    let header = read_header(geometry, bytes);
    if geometry.dirs == 1 {
        let entries = read_entries_1(alloc, bytes)?;
        Ok(Directory { header, entries })
    } else {
        let entries = read_entries_2(alloc, bytes)?;
        Ok(Directory { header, entries })
    }
}

/// The index blocks of an image. The image has all the blocks of the disk.
#[tactic(auto, using(crate::proofs::Numbered::numbered_more, crate::proofs::Numbered::numbered_none, crate::proofs::Numbered::length_numbered))]
pub fn read_indexes(
    alloc: Global,
    geometry: Geometry,
    bytes: &[u8],
) -> Result<Vec<Index>, AllocError>
    requires geometry { IsGeometry geometry }
    requires whole { 512 * geometry.blocks ≤ length bytes.now }
    ensures items { IfOk result (λ v. v.items ≡ numbered_values (index_in_bytes geometry bytes.now) (index_count geometry)) }
    ensures len { IfOk result (λ v. length v.items ≡ index_count geometry) }
{
    let mut indexes = Vec::new(alloc);
    for i in 0..indexes_on(geometry) {
        indexes.push(index_in(geometry, bytes, i))?;
    }
    Ok(indexes)
}

/// The next of each index block.
pub fn read_nexts(alloc: Global, indexes: &[Index]) -> Result<Vec<u32>, AllocError>
    ensures { IfOk result (λ v. v.items ≡ nexts_of indexes.now) }
{
    let mut nexts = Vec::new(alloc);
    for i in 0..indexes.len() {
        let index = indexes[i];
        nexts.push(index.next)?;
    }
    Ok(nexts)
}

/// The first word of each block of an image. The image has all the blocks of the disk.
#[tactic(auto, using(crate::proofs::Numbered::numbered_more, crate::proofs::Numbered::numbered_none, crate::proofs::Numbered::length_numbered))]
pub fn read_links(alloc: Global, geometry: Geometry, bytes: &[u8]) -> Result<Vec<u32>, AllocError>
    requires geometry { IsGeometry geometry }
    requires whole { 512 * geometry.blocks ≤ length bytes.now }
    ensures items { IfOk result (λ v. v.items ≡ numbered_values (link_in_bytes bytes.now) geometry.blocks) }
    ensures len { IfOk result (λ v. length v.items ≡ geometry.blocks) }
{
    let mut links = Vec::new(alloc);
    for n in 0..geometry.blocks {
        links.push(link_in(bytes, n))?;
    }
    Ok(links)
}

/// The bytes of a block, which must be in the image.
pub fn block_at(bytes: &[u8], n: u32) -> [u8; 512]
    requires { 512 * n + 512 ≤ length bytes.now }
    ensures { result ≡ block_in bytes.now n }
{
    let at = 512 * n as usize;
    let mut block = [0u8; 512];
    block.copy_from_slice(&bytes[at..at + 512]);
    block
}

// The word in which version 2 has its number.
fn version_in(bytes: &[u8]) -> u32
    requires { 496 ≤ length bytes.now }
    ensures { result ≡ word_of (drop 492 bytes.now) }
{
    LittleEndian::read_u32(&bytes[492..496])
}

// The counts of the directory.
fn read_header(geometry: Geometry, bytes: &[u8]) -> Header
    requires { 512 ≤ length bytes.now }
    ensures { result ≡ directory_header geometry bytes.now }
{
    let block = block_at(bytes, 0);
    if geometry.dirs == 1 {
        let dir = read_dir_1(&block);
        Header {
            free_data: dir.free_data,
            free_index: dir.free_index,
            files: dir.files,
        }
    } else {
        let dir = read_dir(&block);
        Header {
            free_data: dir.free_data,
            free_index: dir.free_index,
            files: dir.files,
        }
    }
}

// An entry of version 1 with the wider name of version 2.
fn widen(entry: &Entry1) -> Entry
    ensures { result ≡ widened entry.now }
{
    let mut name = [0u8; 28];
    name[..16].copy_from_slice(&entry.name);
    Entry {
        size: entry.size,
        first: entry.first,
        name,
    }
}

// The entries of version 1.
fn read_entries_1(alloc: Global, bytes: &[u8]) -> Result<Vec<Entry>, AllocError>
    requires { 512 ≤ length bytes.now }
    ensures items { IfOk result (λ v. v.items ≡ entries_1 bytes.now) }
    ensures few { IfOk result (λ v. length v.items ≤ 78) }
{
    let dir = read_dir_1(&block_at(bytes, 0));
    let mut entries = Vec::new(alloc);
    for e in 0..20 {
        entries.push(widen(&dir.entries[e]))?;
    }
    Ok(entries)
}

// The entries of version 2.
#[tactic(auto, using(crate::proofs::Numbered::joined_more, crate::proofs::Numbered::joined_none))]
fn read_entries_2(alloc: Global, bytes: &[u8]) -> Result<Vec<Entry>, AllocError>
    requires { 3072 ≤ length bytes.now }
    ensures items { IfOk result (λ v. v.items ≡ entries_2 bytes.now) }
    ensures few { IfOk result (λ v. length v.items ≤ 78) }
{
    let mut entries = Vec::new(alloc);
    for d in 0..6 {
        let dir = read_dir(&block_at(bytes, d));
        entries.extend_from_slice(&dir.entries)?;
    }
    Ok(entries)
}

// An index block of an image.
fn index_in(geometry: Geometry, bytes: &[u8], i: u32) -> Index
    requires geometry { IsGeometry geometry }
    requires whole { 512 * geometry.blocks ≤ length bytes.now }
    requires below { i < index_count geometry }
    ensures { result ≡ index_in_bytes geometry bytes.now i }
{
    let at = 512 * block_of_index(geometry, i) as usize + 72 * (i as usize % 7);
    index_from(&bytes[at..at + 72])
}

// The first word of a block of an image.
fn link_in(bytes: &[u8], n: u32) -> u32
    requires { 512 * n + 512 ≤ length bytes.now }
    ensures { result ≡ link_in_bytes bytes.now n }
{
    let at = 512 * n as usize;
    LittleEndian::read_u32(&bytes[at..at + 4])
}
