//! The tables as lines of a transcript.
//!
//! Each function appends lines as the definition of the same name in `specs/Text.antt` of `xinu_model` makes them, so an event `dump`
//! prints [`tables_of`]. The numbers of semaphores, pools, ports and devices are types, and a count in a line is a word. So the lines have the
//! condition `few`, that the state holds no more than it does in each run (`AreFew` in `specs/Few.antt`). `NoMemory` is the only refusal.
//!
//! | File | Its lines |
//! |---|---|
//! | `tables` | processes, the ready list, semaphores with those who wait, and the sleepers |
//! | `memory` | the free blocks of the heap: neighbouring free cells are one block |
//! | `pools`, `ports` | the pools with their free buffers, and the ports with their messages |
//! | `devices` | the console, the raw disk, and the files that devices have open |

mod devices;
mod memory;
mod pools;
mod ports;
mod tables;

ghost use Rattle.std.specs.Prelude.{◌≡◌, IfOk};
ghost use Rattle.reference_boot.specs.Few.{AreFew};
ghost use Rattle.xinu_model.specs.Text as model;

use reference_state::Machine;
use xinu_base::{NoMemory, TranscriptLine};

/// The tables of a state, one line after another.
pub fn tables_of(m: &Machine) -> Result<Vec<TranscriptLine>, NoMemory>
    requires few { AreFew m.now.state }
    ensures tables { IfOk result (λ l. l.items ≡ model.tables_of m.now.state) }
{
    let mut lines = m.no_lines();
    tables::push_tables(&mut lines, &m.tables)?;
    memory::push_free(&mut lines, &m.heap)?;
    pools::push_pools(&mut lines, &m.pools)?;
    ports::push_ports(&mut lines, &m.ports)?;
    devices::push_devices(&mut lines, m)?;
    Ok(lines)
}
