//! A call on the engine and on the plain list, whose replies and files are compared.

use crate::file_disk::FileDisk;
use crate::plain_files::PlainFiles;
use crate::reading_back::{has_files, has_others};
use crate::script::Script;
use crate::trouble::Trouble;
use local_files::{FileCall, FileDev};
use std::alloc::Global;

/// How often the files are read back off the disk: at one of so many completions, and at the end of one of so many calls; never if 0.
#[derive(Clone, Copy)]
pub(crate) struct Readings {
    pub(crate) completions: u32,
    pub(crate) calls: u32,
}

/// How many calls there were, how many of them with a negative reply, and how many completions.
#[derive(Clone, Copy)]
pub(crate) struct Counts {
    pub(crate) calls: u32,
    pub(crate) refused: u32,
    pub(crate) completions: u32,
}

/// The engine with its disk, and the plain list.
pub(crate) struct Trial {
    served: FileDisk,
    plain: PlainFiles,
    readings: Readings,
    counts: Counts,
}

impl Drop for Trial {
    fn drop(self) {
        let Trial {
            served: _served,
            plain: _plain,
            readings: _readings,
            counts: _counts,
        } = self;
    }
}

impl Trial {
    /// A trial on an empty disk.
    ///
    /// # Errors
    ///
    /// `Stuck` if there is no disk of so many blocks; `NoMemory` out of memory.
    pub(crate) fn on_empty_disk(
        alloc: Global,
        blocks: u32,
        readings: Readings,
    ) -> Result<Trial, Trouble> {
        let served = FileDisk::empty(alloc, blocks)?;
        Ok(Trial {
            served,
            plain: PlainFiles::new(alloc, blocks),
            readings,
            counts: Counts {
                calls: 0,
                refused: 0,
                completions: 0,
            },
        })
    }

    /// Plays so many calls of a script, and reads all files back.
    pub(crate) fn play(
        &mut self,
        alloc: Global,
        script: &mut Script,
        calls: u32,
    ) -> Result<Counts, Trouble> {
        for _ in 0..calls {
            let call = script.next_call(&self.plain);
            let bytes = script.bytes(alloc, &call)?;
            self.call(alloc, &call, &bytes)?;
        }
        self.compare_files(alloc)?;
        Ok(self.counts)
    }

    // Makes a call on both. Answers in what they differ if they do.
    //
    // While the call is in hand, all files but its own are read off the disk as they were; once it is done the disk is clean and has the
    // files of the list.
    fn call(&mut self, alloc: Global, call: &FileCall, bytes: &[u8]) -> Result<(), Trouble> {
        let most = self.plain.most_turns(call, bytes.len());
        let name = self.plain.name_in(call);
        if !self.served.begin(call, bytes) {
            return Err(Trouble::Stuck);
        }
        self.counts.calls = self.counts.calls.wrapping_add(1);
        for _ in 0..most {
            if let Some(reply) = self.served.answer() {
                return self.finish(alloc, call, bytes, reply);
            }
            self.complete(alloc, &name)?;
        }
        match self.served.answer() {
            Some(reply) => self.finish(alloc, call, bytes, reply),
            None => Err(Trouble::Stuck),
        }
    }

    // One completion.
    fn complete(&mut self, alloc: Global, name: &[u8; 28]) -> Result<(), Trouble> {
        if !self.served.complete() {
            return Err(Trouble::Stuck);
        }
        self.counts.completions = self.counts.completions.wrapping_add(1);
        if is_due(self.counts.completions, self.readings.completions)
            && !has_others(alloc, self.served.disk(), self.plain.files(), name)?
        {
            return Err(Trouble::Files(self.counts.completions));
        }
        Ok(())
    }

    // The call on the plain list, and the comparison.
    fn finish(
        &mut self,
        alloc: Global,
        call: &FileCall,
        bytes: &[u8],
        reply: i32,
    ) -> Result<(), Trouble> {
        let wanted = self.plain.call(alloc, call, bytes)?;
        if reply != wanted {
            return Err(Trouble::Reply(reply, wanted));
        }
        if self.served.gathered() != self.plain.given() {
            return Err(Trouble::Bytes);
        }
        if !self.has_devices() {
            return Err(Trouble::Devices);
        }
        if reply < 0 {
            self.counts.refused = self.counts.refused.wrapping_add(1);
        }
        if is_due(self.counts.calls, self.readings.calls) {
            self.compare_files(alloc)?;
        }
        Ok(())
    }

    // Reads all files off the disk and compares them with the list.
    fn compare_files(&self, alloc: Global) -> Result<(), Trouble> {
        if has_files(alloc, self.served.disk(), self.plain.files())? {
            Ok(())
        } else {
            Err(Trouble::Files(self.counts.completions))
        }
    }

    // Whether the same devices are open, at the same positions.
    fn has_devices(&self) -> bool {
        for d in 0..6 {
            if let Some(d) = FileDev::from_word(d) {
                if !are_same(self.served.position(d), self.plain.position(d)) {
                    return false;
                }
            }
        }
        self.served.open_count() == self.plain.open_count()
    }
}

// Whether two positions are the same.
fn are_same(x: Option<u32>, y: Option<usize>) -> bool {
    match (x, y) {
        (Some(x), Some(y)) => x as usize == y,
        (None, None) => true,
        _ => false,
    }
}

// Whether one of so many is this one.
fn is_due(n: u32, every: u32) -> bool {
    every > 0 && n % every == 0
}
