//! What is asked of the machine between two events, besides the next event and the tables: the calls on files that are under way, and
//! whether no process but the null process is left.

ghost use Rattle.std.specs.Prelude.{◌≡◌};
ghost use Rattle.std.specs.List.{list_all};
ghost use Rattle.xinu_model.specs.Files.Syscalls.{files_of};
ghost use Rattle.xinu_model.specs.Files.Work as work;
ghost use Rattle.xinu_model.specs.Runs as runs;
ghost use Rattle.xinu_model.specs.Tables as tables;

use reference_files::least_effects;
use reference_state::{FileRequest, Machine};
use xinu_base::{Process, State};

/// The calls on files that are under way, in their order.
pub(crate) fn calls_of(m: &Machine) -> &[FileRequest]
    ensures calls { result.now ≡ (files_of m.now.state).calls }
{
    let w = &m.files;
    w.calls.as_slice()
}

/// How many of them have to take effect at a good completion of the disk.
pub(crate) fn least_of(m: &Machine) -> usize
    ensures least { result ≡ work.least_effects (files_of m.now.state).calls (files_of m.now.state) }
{
    least_effects(&m.files)
}

/// Whether no process but the null process is left.
pub fn is_over(m: &Machine) -> bool
    ensures over { result ≡ runs.is_over m.now.state }
{
    let t = &m.tables;
    let (_, others) = t.processes.split_at(1);
    are_free(others)
}

// Whether each of these entries is free.
fn are_free(processes: &[Process]) -> bool
    ensures free { result ≡ list_all (λ p. tables.is_free p.state) processes.now }
{
    for process in processes {
        if !is_free(process) {
            return false;
        }
    }
    true
}

// Whether an entry is free.
fn is_free(process: &Process) -> bool
    ensures free { result ≡ tables.is_free process.now.state }
{
    matches!(process.state, State::Free)
}
