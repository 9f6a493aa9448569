//! What the console echoes (book, chapter 15).

ghost use Rattle.std.specs.Prelude.{◌≡◌, IfOk, if◌then◌else◌};
ghost use Rattle.reference_devices.specs.Columns.{one_column, two_columns};
ghost use Rattle.xinu_model.specs.Console.Echo as model;

use crate::constants::{
    DEL, TY_BACKSP, TY_BELL, TY_BLANK, TY_EBUFLEN, TY_NEWLINE, TY_RETURN, TY_UPARROW,
};
use reference_state::Console;
use reference_tables::append;
use xinu_base::NoMemory;

/// These bytes join the echo if echo is on, as far as there is room.
pub(crate) fn echo(c: &mut Console, bytes: &[u8]) -> Result<(), NoMemory>
    ensures echoed { IfOk result (λ _. c.new ≡ model.echoed bytes.now c.old) }
{
    if c.echoes {
        with_echo(c, bytes)?;
    }
    Ok(())
}

/// The bell rings, whether echo is on or off.
pub(crate) fn ring(c: &mut Console) -> Result<(), NoMemory>
    ensures rung { IfOk result (λ _. c.new ≡ model.rung c.old) }
{
    with_echo(c, &[TY_BELL])
}

/// The echo of a byte: a newline has its carriage return, any other control character takes two columns.
pub(crate) fn echo_byte(c: &mut Console, b: u8) -> Result<(), NoMemory>
    ensures echoed { IfOk result (λ _. c.new ≡ model.echoed (model.echo_of b) c.old) }
{
    if b == TY_NEWLINE {
        echo(c, &[TY_RETURN, TY_NEWLINE])
    } else if b < TY_BLANK {
        echo(c, &[TY_UPARROW, b + 64])
    } else if b == DEL {
        echo(c, &[TY_UPARROW, 63])
    } else {
        echo(c, &[b])
    }
}

/// Each column of a byte's echo is erased: a step back, a blank over it, and a step back.
pub(crate) fn echo_erasing(c: &mut Console, b: u8) -> Result<(), NoMemory>
    ensures echoed { IfOk result (λ _. c.new ≡ model.echoed (model.erasing (model.echo_of b)) c.old) }
{
    if is_wide(b) {
        echo(
            c,
            &[
                TY_BACKSP, TY_BLANK, TY_BACKSP, TY_BACKSP, TY_BLANK, TY_BACKSP,
            ],
        )
    } else {
        echo(c, &[TY_BACKSP, TY_BLANK, TY_BACKSP])
    }
}

// Whether a byte's echo takes two columns.
fn is_wide(b: u8) -> bool
    ensures wide { model.erasing (model.echo_of b) ≡ (if result then two_columns else one_column) }
{
    if b == TY_NEWLINE {
        return true;
    }
    if b < TY_BLANK {
        return true;
    }
    b == DEL
}

// These bytes join the echo, as far as there is room.
fn with_echo(c: &mut Console, bytes: &[u8]) -> Result<(), NoMemory>
    ensures joined { IfOk result (λ _. c.new ≡ model.with_echo bytes.now c.old) }
{
    let room = TY_EBUFLEN.saturating_sub(c.echo.len());
    if bytes.len() <= room {
        append(&mut c.echo, bytes)
    } else {
        append(&mut c.echo, &bytes[..room])
    }
}
