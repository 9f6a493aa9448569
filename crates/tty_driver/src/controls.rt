//! The control functions (book, chapter 15, `ttycontrol.c`).

ghost use Rattle.std.specs.Prelude.{◌≡◌};
ghost use Rattle.xinu_model.specs.Console.Controls.{controlled, after_control};
ghost use Rattle.tty_driver.specs.Transmitting.{count_by};

use crate::tty::Tty;
use xinu_base::TtyMode;

impl Tty {
    /// Carries out control function `f`: 1 is raw mode, 2 cbreak mode, 3 cooked mode, 5 echo on, 6 echo off. Answers how many items
    /// it committed. `None`, and nothing changes, if and only if `f` is none of these.
    pub fn control(&mut self, f: u32) -> Option<u32>
        ensures count { result ≡ count_by (controlled f self.old) }
        ensures console { self.new ≡ after_control (controlled f self.old) self.old }
    {
        match f {
            1 => {
                self.mode = TtyMode::Raw;
                self.held = false;
                Some(self.input.commit_line())
            }
            2 => {
                self.mode = TtyMode::Cbreak;
                Some(self.input.commit_line())
            }
            3 => {
                self.mode = TtyMode::Cooked;
                Some(0)
            }
            5 => {
                self.echoes = true;
                Some(0)
            }
            6 => {
                self.echoes = false;
                Some(0)
            }
            _ => None,
        }
    }
}
