//! Output: a byte is put, and a byte is sent (book, chapter 15, `ttyputc.c`, `ttyhandle_out.c`).

ghost use Rattle.std.specs.Prelude.{◌≡◌, ◌<◌, length};
ghost use Rattle.xinu_model.specs.Console.Constants.{TY_OBUFLEN};
ghost use Rattle.xinu_model.specs.Console.State.{with_output};
ghost use Rattle.xinu_model.specs.Console.Transmitting.{transmitted, after_transmission};
ghost use Rattle.tty_driver.specs.Transmitting.{sent_byte};

use crate::tty::Tty;

impl Tty {
    /// Puts a byte after the others of the output. There must be room for it.
    pub fn put(&mut self, b: u8)
        requires room { length self.old.output < TY_OBUFLEN }
        ensures put { self.new ≡ with_output b self.old }
    {
        self.output.push_back(b);
    }

    /// Sends the first byte of the echo, or else the first of the output. Answers the byte, and whether it was output. `None`, and
    /// nothing changes, if and only if output is held or there is nothing to be sent.
    pub fn transmit(&mut self) -> Option<(u8, bool)>
        ensures byte { result ≡ sent_byte (transmitted self.old) }
        ensures sent { self.new ≡ after_transmission (transmitted self.old) self.old }
    {
        if self.held {
            return None;
        }
        if let Some(b) = self.echo.pop_front() {
            return Some((b, false));
        }
        match self.output.pop_front() {
            Some(b) => Some((b, true)),
            None => None,
        }
    }
}
