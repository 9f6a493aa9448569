//! Echo: what is typed shows on the screen (book, chapter 15, `echoch`, `eputc`, `erase1` in `ttyhandle_in.c`).

ghost use Rattle.std.specs.Prelude.{◌≡◌};
ghost use Rattle.xinu_model.specs.Console.Echo.{new_line, echo_of, erasing, echoed, rung};

use crate::constants::{DEL, TY_BACKSP, TY_BELL, TY_BLANK, TY_NEWLINE, TY_RETURN, TY_UPARROW};
use crate::tty::Tty;

impl Tty {
    /// Echoes these bytes, as far as there is room, if echo is on.
    pub(crate) fn echo_bytes(&mut self, bytes: &[u8])
        ensures echoed { self.new ≡ echoed bytes.now self.old }
    {
        if self.echoes {
            self.echo.fill_from_slice(bytes);
        }
    }

    /// Rings the bell, whether echo is on or off.
    pub(crate) fn ring_bell(&mut self)
        ensures rung { self.new ≡ rung self.old }
    {
        self.echo.fill_from_slice(&[TY_BELL]);
    }

    /// Echoes a newline with its carriage return.
    pub(crate) fn echo_newline(&mut self)
        ensures echoed { self.new ≡ echoed new_line self.old }
    {
        self.echo_bytes(&[TY_RETURN, TY_NEWLINE]);
    }

    /// Echoes a byte that was received.
    pub(crate) fn echo_byte(&mut self, b: u8)
        ensures echoed { self.new ≡ echoed (echo_of b) self.old }
    {
        if b == TY_NEWLINE {
            self.echo_newline();
        } else if b < TY_BLANK {
            self.echo_bytes(&[TY_UPARROW, b + 64]);
        } else if b == DEL {
            self.echo_bytes(&[TY_UPARROW, b'?']);
        } else {
            self.echo_bytes(&[b]);
        }
    }

    /// Erases a byte on the screen: each column that it took.
    pub(crate) fn echo_erased(&mut self, b: u8)
        ensures echoed { self.new ≡ echoed (erasing (echo_of b)) self.old }
    {
        if b < TY_BLANK || b == DEL {
            self.echo_bytes(&[
                TY_BACKSP, TY_BLANK, TY_BACKSP, TY_BACKSP, TY_BLANK, TY_BACKSP,
            ]);
        } else {
            self.echo_bytes(&[TY_BACKSP, TY_BLANK, TY_BACKSP]);
        }
    }
}
