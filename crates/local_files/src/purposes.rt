//! The table of purposes: which block each wants, and whether it is read or written.

ghost use Rattle.std.specs.Prelude.{◌≡◌};
ghost use Rattle.local_files.specs.Wanted.{block_of, block_of_index, block_for, going_on};

use crate::{BlockWork, Files, Phase, Purpose};

impl Files {
    // The block that is wanted.
    pub(crate) fn block_for(&self, purpose: Purpose) -> BlockWork
        ensures { result ≡ block_for purpose self.now }
    {
        match purpose {
            Purpose::Search { block } => BlockWork::Read(block),
            Purpose::Walk { index, .. } => BlockWork::Read(block_of_index(index)),
            Purpose::Fetch { block } => BlockWork::Read(block),
            Purpose::Counts => BlockWork::Read(0),
            Purpose::Reach { index, .. } => BlockWork::Read(block_of_index(index)),
            Purpose::PatchRead { block } => BlockWork::Read(block),
            Purpose::PatchWrite { block } => BlockWork::Write(block),
            Purpose::TakeRead { block } => BlockWork::Read(block),
            Purpose::TakeWrite { block } => BlockWork::Write(block),
            Purpose::AddRead { .. } => BlockWork::Read(block_of_index(self.at)),
            Purpose::AddWrite { .. } => BlockWork::Write(block_of_index(self.at)),
            Purpose::NewRead { index, .. } => BlockWork::Read(block_of_index(index)),
            Purpose::NewWrite { index, .. } => BlockWork::Write(block_of_index(index)),
            Purpose::LinkRead { .. } => BlockWork::Read(block_of_index(self.at)),
            Purpose::LinkWrite { .. } => BlockWork::Write(block_of_index(self.at)),
            Purpose::CutRead => BlockWork::Read(block_of_index(self.at)),
            Purpose::CutWrite => BlockWork::Write(block_of_index(self.at)),
            Purpose::FreeWrite { block } => BlockWork::Write(block),
            Purpose::EntryRead => BlockWork::Read(self.slot / 13),
            Purpose::EntryWrite => BlockWork::Write(self.slot / 13),
            Purpose::HeaderRead => BlockWork::Read(0),
            Purpose::HeaderWrite => BlockWork::Write(0),
        }
    }

    // Goes on to the block that is wanted, if the disk has such a block.
    pub(crate) fn go_on(&mut self, purpose: Purpose)
        ensures new { self.new ≡ going_on purpose self.old }
    {
        if block_of(self.block_for(purpose)) < self.blocks {
            self.phase = Phase::Wants(purpose);
        } else {
            self.answer_with(-1);
        }
    }
}

// The number of the block.
fn block_of(work: BlockWork) -> u32
    ensures { result ≡ block_of work }
{
    match work {
        BlockWork::Read(n) => n,
        BlockWork::Write(n) => n,
    }
}

// The disk block of an index block.
fn block_of_index(index: u32) -> u32
    ensures { result ≡ block_of_index index }
{
    6 + index / 7
}
