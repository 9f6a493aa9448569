//! An event of any kind, along a text, and the lines of the tables.

ghost use Rattle.std.specs.Prelude.{◌≡◌, IfOk, false};
ghost use Rattle.reference_state.specs.Answers.{IsStart};
ghost use Rattle.reference_state.specs.Happened.{happened};
ghost use Rattle.reference_check.specs.Bounds.{IsWithin};
ghost use Rattle.transcript_laws.specs.Choices.{told};
ghost use Rattle.xinu_model.specs.Events as model;
ghost use Rattle.xinu_model.specs.Text as tables;

use crate::choices::more_told;
use crate::file_notes::{files_complete, nothing};
use crate::steps::step;
use reference_boot::tables_of;
use reference_calls::clock::ticked;
use reference_devices::console_signals::{keyed, transmits};
use reference_devices::disk::disk_completes;
use reference_state::{Happened, Machine};
use xinu_base::{Event, NoMemory, TranscriptLine};

/// Takes an event. Where it leaves open which calls on files take effect, the text that begins with what it prints tells that.
pub fn take(m: &mut Machine, e: Event, text: &[u8]) -> Result<Happened, NoMemory>
    requires start { IsStart m.old }
    requires within { IsWithin 1000000000 m.old.state }
    ensures happens { IfOk result (λ h. happened h m.new.state ≡ model.effect_of m.old.state e (told m.old.state e text.now)) }
    ensures start { IfOk result (λ _. IsStart m.new) }
{
    match e {
        Event::Step => step(m, text),
        Event::Tick => ticked(m),
        Event::Key(b) => keyed(m, b),
        Event::Tx => transmits(m),
        Event::Disk0 => disk_completes(m, true),
        Event::Fail0 => disk_completes(m, false),
        Event::Disk1 => {
            let more = more_told(m, text);
            files_complete(m, more)
        }
        Event::Fail1 => Ok(nothing(m)),
        Event::Dump => dump(m),
    }
}

// The event in which the tables are printed.
fn dump(m: &Machine) -> Result<Happened, NoMemory>
    requires within { IsWithin 1000000000 m.now.state }
    ensures dumps { IfOk result (λ h. happened h m.now.state ≡
        record { lines = tables.tables_of m.now.state; state = m.now.state; panics = false }) }
{
    Ok(Happened {
        lines: lines_of(m)?,
        panics: false,
    })
}

/// The lines of the tables.
pub fn lines_of(m: &Machine) -> Result<Vec<TranscriptLine>, NoMemory>
    requires within { IsWithin 1000000001 m.now.state }
    ensures tables { IfOk result (λ l. l.items ≡ tables.tables_of m.now.state) }
{
    tables_of(m)
}
