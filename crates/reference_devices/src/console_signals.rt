//! What the console tells those who wait for it: an item that was committed is a token of its input, and a byte of output that was sent one
//! of its output (book, chapter 15, `ttyhandle_in.c`, `ttyhandle_out.c`, `ttycontrol.c`).

ghost use Rattle.std.specs.Prelude.{◌≡◌, ◌+ℤ◌, IfOk, IfNone, IfSome, option_map, pos, int_lt, true, false};
ghost use Rattle.reference_devices.specs.Received.{came_to as console_came_to, sent_of};
ghost use Rattle.reference_state.specs.Answers.{came_to, IsStart};
ghost use Rattle.reference_state.specs.Happened.{happened};
ghost use Rattle.xinu_model.specs.Console.Controls.{controlled};
ghost use Rattle.xinu_model.specs.Console.Receiving.{received};
ghost use Rattle.xinu_model.specs.Console.Signals as model;
ghost use Rattle.xinu_model.specs.Console.Taking.{console_of, with_console};
ghost use Rattle.xinu_model.specs.Console.Transmitting.{transmitted};
ghost use Rattle.xinu_model.specs.Semaphores.Counts.{count_of, most_tokens};
ghost use Rattle.xinu_model.specs.Sound.Console.{IsConsole};
ghost use Rattle.xinu_model.specs.Tables.{semaphore_at};

use crate::controls::control;
use crate::receiving::receive;
use crate::silence::nothing;
use crate::transmitting::{Sent, transmit};
use reference_state::{Answer, Happened, Machine};
use xinu_base::{NoMemory, SYSERR, TranscriptLine};

// The semaphore of the console's input: a token for each item that can be taken.
const TY_ISEM: u32 = 0;

// The semaphore of the console's output: a token for each byte that there is room for.
const TY_OSEM: u32 = 1;

// The control function that answers how many items can be taken.
const TC_ICHARS: u32 = 4;

/// `control`: how many items can be taken, or another mode or echo. Refused if there is no such function.
pub fn console_control(m: &mut Machine, f: u32) -> Result<Answer, NoMemory>
    requires start { IsStart m.old }
    requires console { IsConsole m.old.state.tables m.old.state.parts.devices.console }
    ensures control { IfOk result (λ a. came_to m.new a ≡ model.console_control f m.old.state) }
{
    if f == TC_ICHARS {
        return Ok(Answer::Returns(m.tables.tokens_of(TY_ISEM) as i32));
    }
    let Some(n) = control_console(m, f)? else {
        return Ok(Answer::Returns(SYSERR));
    };
    m.signalled_times(TY_ISEM, n)?;
    Ok(Answer::Returns(0))
}

/// The event in which a character is received: each item that it commits is a token of the input.
pub fn keyed(m: &mut Machine, b: u8) -> Result<Happened, NoMemory>
    requires start { IsStart m.old }
    requires console { IsConsole m.old.state.tables m.old.state.parts.devices.console }
    ensures keyed { IfOk result (λ h. happened h m.new.state ≡ model.keyed b m.old.state) }
    ensures start { IfOk result (λ _. IsStart m.new) }
{
    let was = m.current();
    let n = receive_at(m, b)?;
    m.signalled_times(TY_ISEM, n)?;
    let first = m.no_lines();
    m.end_of_event(was, first, Answer::Silent)
}

/// The event in which the console may transmit: a byte is sent, if there is one and output isn't held, and if it was output there is room
/// for another one. Whoever goes on then is answered later, so the byte's line is the first.
pub fn transmits(m: &mut Machine) -> Result<Happened, NoMemory>
    requires start { IsStart m.old }
    requires console { IsConsole m.old.state.tables m.old.state.parts.devices.console }
    ensures transmits { IfOk result (λ h. happened h m.new.state ≡ model.transmits m.old.state) }
    ensures start { IfOk result (λ _. IsStart m.new) }
{
    let was = m.current();
    let Some(sent) = transmit_at(m) else {
        return Ok(nothing(m));
    };
    if sent.is_output {
        m.signalled(TY_OSEM)?;
    }
    let first = m.one_line(TranscriptLine::Con(sent.byte))?;
    m.end_of_event(was, first, Answer::Silent)
}

// A character is received; how many items it committed, for which the count of the input's semaphore has room.
fn receive_at(m: &mut Machine, b: u8) -> Result<u32, NoMemory>
    requires console { IsConsole m.old.state.tables m.old.state.parts.devices.console }
    ensures received { IfOk result (λ n. console_came_to (console_of m.new.state) n ≡ received b (console_of m.old.state)) }
    ensures machine { IfOk result (λ _. m.new ≡ record m.old { state = with_console (console_of m.new.state) m.old.state }) }
    ensures room { IfOk result (λ n. int_lt most_tokens (count_of (semaphore_at m.old.state.tables 0) +ℤ pos n) ≡ false) }
{
    let n = receive(&mut m.console, b)?;
    Ok(n as u32)
}

// A control function; how many items it committed, for which the count of the input's semaphore has room.
fn control_console(m: &mut Machine, f: u32) -> Result<Option<u32>, NoMemory>
    requires console { IsConsole m.old.state.tables m.old.state.parts.devices.console }
    ensures controlled { IfOk result (λ r.
        option_map (console_came_to (console_of m.new.state)) r ≡ controlled f (console_of m.old.state)) }
    ensures machine { IfOk result (λ _. m.new ≡ record m.old { state = with_console (console_of m.new.state) m.old.state }) }
    ensures stays { IfOk result (λ r. IfNone r (m.new ≡ m.old)) }
    ensures room { IfOk result (λ r. IfSome r (λ n. int_lt most_tokens (count_of (semaphore_at m.old.state.tables 0) +ℤ pos n) ≡ false)) }
{
    match control(&mut m.console, f)? {
        Some(n) => Ok(Some(n as u32)),
        None => Ok(None),
    }
}

// A transmission. If it is of output, the count of the output's semaphore has room.
fn transmit_at(m: &mut Machine) -> Option<Sent>
    requires console { IsConsole m.old.state.tables m.old.state.parts.devices.console }
    ensures transmitted { option_map (sent_of (console_of m.new.state)) result ≡ transmitted (console_of m.old.state) }
    ensures machine { m.new ≡ record m.old { state = with_console (console_of m.new.state) m.old.state } }
    ensures stays { IfNone result (m.new ≡ m.old) }
    ensures room { int_lt (count_of (semaphore_at m.old.state.tables 1)) most_tokens ≡ true }
{
    transmit(&mut m.console)
}
