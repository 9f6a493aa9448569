//! The name space: mounted prefixes, and what they make of a name (book, chapter 21, `mount.c`, `nammap.c`, `namrepl.c`).

ghost use Rattle.std.specs.Prelude.{◌≡◌, ◌++◌, ◌∷◌, ◌&&◌, [], IfOk, Some, None, nat_le, length, if◌then◌else◌, true, is_some, nat_lt};
ghost use Rattle.reference_state.specs.Answers.{came_to, IsStart};
ghost use Rattle.xinu_model.specs.Devices.Table.{kind_of};
ghost use Rattle.xinu_model.specs.Names.Calls as model;
ghost use Rattle.xinu_model.specs.Names.Mapping as mapping;
ghost use Rattle.xinu_model.specs.Names.Mounting as mounting;

use crate::texts::text_at;
use reference_state::{Answer, Machine, NameRow};
use reference_tables::{append, copied, push};
use std::marker::Model;
use xinu_base::{Dev, NoMemory, SYSERR};

// The most prefixes that can be mounted.
const NNAMES: usize = 40;

// The most bytes of a prefix.
const NM_PRELEN: usize = 31;

// The most bytes of a replacement.
const NM_REPLLEN: usize = 31;

// The most bytes of a name.
const NM_MAXLEN: usize = 127;

// The most times that a name's prefix is replaced.
const NM_MAXMAPS: u32 = 40;

// The device that maps names.
const NAMESPACE: usize = 1;

/// A name, and the device that gets it.
#[derive(Drop)]
pub struct MappedName {
    /// The device.
    pub device: Dev,
    /// The name.
    pub name: Vec<u8>,
}

impl Model for MappedName {
    ghost use Rattle.xinu_model.specs.Names.Mapping as model;

    ghost Value = { model.MappedName };

    ghost view = { λ m. record { device = m.device; name = m.name.items } };
}

/// Call 44: the text at an address is mounted as a prefix, with another text in its place, for a device. Refused if there is no such
/// device, a text isn't there or is too long, or there are as many prefixes as there can be.
pub fn mount(m: &mut Machine, prefix: u32, replacement: u32, dev: u32) -> Result<Answer, NoMemory>
    requires start { IsStart m.old }
    ensures mount { IfOk result (λ a. came_to m.new a ≡ model.mount prefix replacement dev m.old.state) }
{
    let Some(device) = device_of(dev) else {
        return Ok(Answer::Returns(SYSERR));
    };
    let Some(prefix) = text_at(m, prefix)? else {
        return Ok(Answer::Returns(SYSERR));
    };
    let Some(replacement) = text_at(m, replacement)? else {
        return Ok(Answer::Returns(SYSERR));
    };
    let row = NameRow {
        prefix: prefix.bytes,
        replacement: replacement.bytes,
        device,
    };
    if !may_mount(m, &row) {
        return Ok(Answer::Returns(SYSERR));
    }
    add_row(m, row)?;
    Ok(Answer::Returns(0))
}

/// What a name is mapped to: the first prefix that begins it is replaced, until the device isn't the name space. `None` if and only if no
/// prefix fits, a name gets too long, or there are too many replacements.
pub fn map_name(rows: &[NameRow], name: Vec<u8>) -> Result<Option<MappedName>, NoMemory>
    ensures mapped { IfOk result (λ r. r ≡ mapping.map_name rows.now name.items) }
{
    if name.len() > NM_MAXLEN {
        return Ok(None);
    }
    let mut text = name;
    let mut left = NM_MAXMAPS;
    while left > 0 {
        let Some(MappedName { device, name }) = replace_once(rows, text)? else {
            return Ok(None);
        };
        if device.index() != NAMESPACE {
            return Ok(Some(MappedName { device, name }));
        }
        text = name;
        left -= 1;
    }
    Ok(None)
}

// The device of a word. `None` if and only if there is none.
fn device_of(word: u32) -> Option<Dev>
    ensures device { result ≡ (if nat_lt word 10 then Some word else None) }
    ensures kind { is_some (kind_of word) ≡ is_some result }
{
    Dev::from_word(word)
}

// Whether there is room for one more row, and its texts aren't too long.
fn may_mount(m: &Machine, row: &NameRow) -> bool
    ensures may { result ≡ mounting.may_mount row.now (model.names_of m.now.state) }
{
    m.names.len() < NNAMES && is_row(row)
}

// Whether the texts of a row aren't too long.
fn is_row(row: &NameRow) -> bool
    ensures row { result ≡ (nat_le (length row.now.prefix) 31 && nat_le (length row.now.replacement) 31) }
{
    row.prefix.len() <= NM_PRELEN && row.replacement.len() <= NM_REPLLEN
}

// One more row, the last.
fn add_row(m: &mut Machine, row: NameRow) -> Result<(), NoMemory>
    ensures added { IfOk result (λ _. m.new ≡
        record m.old { state = model.with_names (model.names_of m.old.state ++ row ∷ []) m.old.state }) }
{
    push(&mut m.names, row)
}

// The name by the first row whose prefix begins it. `None` if and only if there is none, or the name gets too long.
fn replace_once(rows: &[NameRow], name: Vec<u8>) -> Result<Option<MappedName>, NoMemory>
    ensures replaced { IfOk result (λ r. r ≡ mapping.replaced_once rows.now name.items) }
{
    for row in rows {
        if fits(row, &name) {
            return replace(row, &name);
        }
    }
    Ok(None)
}

// Whether a row's prefix begins a name.
fn fits(row: &NameRow, name: &[u8]) -> bool
    ensures fits { result ≡ mapping.fits_row name.now row.now }
{
    name.starts_with(&row.prefix)
}

// A name that a row's prefix begins, with the replacement in place of the prefix. `None` if and only if it gets too long.
fn replace(row: &NameRow, name: &[u8]) -> Result<Option<MappedName>, NoMemory>
    requires fits { mapping.fits_row name.now row.now ≡ true }
    ensures replaced { IfOk result (λ r. r ≡ mapping.short_enough (mapping.replaced row.now name.now)) }
{
    let mut text = copied(&row.replacement)?;
    append(&mut text, &name[row.prefix.len()..])?;
    if text.len() > NM_MAXLEN {
        return Ok(None);
    }
    Ok(Some(MappedName {
        device: row.device,
        name: text,
    }))
}
