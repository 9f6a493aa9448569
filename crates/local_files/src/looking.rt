//! The search of a name in the directory.

ghost use Rattle.std.specs.Prelude.{◌≡◌, ◌+◌, ◌*◌, ◌<◌, ℕ, List};
ghost use Rattle.lfs_check.specs.Rules.{block_in};
ghost use Rattle.local_files.specs.Standing.{Stands, GoesTo, call_bytes};
ghost use Rattle.local_files.specs.Bounds.{left};

use crate::search::find;
use crate::{Files, Phase, Purpose};
use lfs_format::read_dir;

impl Files {
    // A directory block is read.
    pub(crate) fn search(&mut self, d: u32, read: &[u8; 512])
        requires phase { self.old.phase ≡ Phase.Wants (Purpose.Search d) }
        ensures goes { (base disk : List ℕ) → Stands self.old base disk → read.now ≡ block_in disk d
            → GoesTo self.new.phase self.old.call (call_bytes self.old) self.old self.new base disk }
        ensures less { (base disk : List ℕ) → Stands self.old base disk → read.now ≡ block_in disk d → left self.new base < left self.old base }
    {
        if d < 6 {
            self.searched(d, read);
        } else {
            self.answer_with(-1);
        }
    }

    // Directory block `d` is read: the name is in it, or the search goes on.
    fn searched(&mut self, d: u32, read: &[u8; 512])
        requires below { d < 6 }
        requires phase { self.old.phase ≡ Phase.Wants (Purpose.Search d) }
        ensures goes { (base disk : List ℕ) → Stands self.old base disk → read.now ≡ block_in disk d
            → GoesTo self.new.phase self.old.call (call_bytes self.old) self.old self.new base disk }
        ensures less { (base disk : List ℕ) → Stands self.old base disk → read.now ≡ block_in disk d → left self.new base < left self.old base }
    {
        let dir = read_dir(read);
        self.keep_header(d, &dir);
        match find(&dir.entries, &self.name()) {
            Some(k) => self.found(13 * d + k, dir.entries[k as usize]),
            None => self.pass(d, &dir),
        }
    }
}
