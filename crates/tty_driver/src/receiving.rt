//! A received character, mode by mode (book, chapter 15, `ttyhandle_in.c`).

ghost use Rattle.std.specs.Prelude.{◌≡◌, ◌==◌, ◌&&◌, not, [], if◌then◌else◌};
ghost use Rattle.xinu_base.specs.declared.console.Item.TheVariants.{End};
ghost use Rattle.xinu_base.specs.declared.console.TtyMode.TheVariants.{Raw, Cbreak, Cooked};
ghost use Rattle.xinu_model.specs.Console.Echo.{rung};
ghost use Rattle.xinu_model.specs.Console.Receiving.{newline_for_return, received};
ghost use Rattle.xinu_model.specs.Console.Rows.{raw_rows, cbreak_rows, cooked_rows, by_rows, commits_none, commits_item, emptied, erased, is_empty, is_full, is_line_full, joined, line_ended};

use crate::constants::{
    TY_BACKSP, TY_EOFCH, TY_IBUFLEN, TY_KILLCH, TY_NEWLINE, TY_RETURN, TY_STOPCH, TY_STRTCH,
};
use crate::tty::Tty;
use xinu_base::{Item, TtyMode};

impl Tty {
    /// Receives a character, by the table of characters of the console's mode. Answers how many items were committed.
    pub fn receive(&mut self, b: u8) -> u32
        ensures console { self.new ≡ (received b self.old).console }
        ensures count { result ≡ (received b self.old).count }
    {
        match self.mode() {
            TtyMode::Raw => self.receive_raw(b),
            TtyMode::Cbreak => {
                let b = newline_for(b);
                if self.flow(b) {
                    self.receive_cbreak(b)
                } else {
                    0
                }
            }
            TtyMode::Cooked => {
                let b = newline_for(b);
                if self.flow(b) {
                    self.receive_cooked(b)
                } else {
                    0
                }
            }
        }
    }

    /// Receives a character in raw mode.
    fn receive_raw(&mut self, b: u8) -> u32
        requires mode { self.old.mode ≡ Raw }
        ensures console { self.new ≡ (by_rows raw_rows b self.old).console }
        ensures count { result ≡ (by_rows raw_rows b self.old).count }
    {
        if self.input.size() >= TY_IBUFLEN {
            return 0;
        }
        self.input.commit(Item::Char(b));
        1
    }

    /// Receives a character in cbreak mode.
    fn receive_cbreak(&mut self, b: u8) -> u32
        requires mode { self.old.mode ≡ Cbreak }
        ensures console { self.new ≡ (by_rows cbreak_rows b self.old).console }
        ensures count { result ≡ (by_rows cbreak_rows b self.old).count }
    {
        if self.input.size() >= TY_IBUFLEN {
            self.ring_bell();
            return 0;
        }
        self.echo_byte(b);
        self.input.commit(Item::Char(b));
        1
    }

    /// Receives a character in cooked mode.
    fn receive_cooked(&mut self, b: u8) -> u32
        requires mode { self.old.mode ≡ Cooked }
        ensures console { self.new ≡ (by_rows cooked_rows b self.old).console }
        ensures count { result ≡ (by_rows cooked_rows b self.old).count }
    {
        match b {
            TY_BACKSP => {
                self.erase();
                0
            }
            TY_KILLCH => {
                self.kill();
                0
            }
            TY_NEWLINE => self.end_line(),
            TY_EOFCH if self.has_no_line() => self.end_input(),
            _ => {
                self.join(b);
                0
            }
        }
    }

    /// Whether nothing is typed.
    fn has_no_line(&self) -> bool
        ensures empty { result ≡ is_empty self.now }
    {
        self.input.line() == 0
    }

    /// Erases the last byte of the line, here and on the screen, if there is one.
    fn erase(&mut self)
        ensures erased { self.new ≡ (if is_empty self.old then self.old else erased self.old) }
    {
        if self.input.line() > 0 {
            let b = self.input.erase();
            self.echo_erased(b);
        }
    }

    /// Empties the line.
    fn kill(&mut self)
        ensures emptied { self.new ≡ emptied self.old }
    {
        self.input.kill();
        self.echo_newline();
    }

    /// Commits the line with a newline, or rings the bell if there is no room for it. Answers how many items were committed.
    fn end_line(&mut self) -> u32
        requires mode { self.old.mode ≡ Cooked }
        ensures console { self.new ≡ (if is_full self.old then commits_none (rung self.old) else line_ended self.old).console }
        ensures count { result ≡ (if is_full self.old then commits_none (rung self.old) else line_ended self.old).count }
    {
        if self.input.size() >= TY_IBUFLEN {
            self.ring_bell();
            return 0;
        }
        self.input.join(TY_NEWLINE);
        self.echo_newline();
        self.input.commit_line()
    }

    /// Commits the end mark, or rings the bell if there is no room for it. Answers how many items were committed.
    fn end_input(&mut self) -> u32
        requires empty { self.old.line ≡ [] }
        ensures console { self.new ≡ (if is_full self.old then commits_none (rung self.old) else commits_item End self.old).console }
        ensures count { result ≡ (if is_full self.old then commits_none (rung self.old) else commits_item End self.old).count }
    {
        if self.input.size() >= TY_IBUFLEN {
            self.ring_bell();
            return 0;
        }
        self.input.commit(Item::End);
        1
    }

    /// Joins a byte to the line and echoes it, or rings the bell if there is no room for it and a newline.
    fn join(&mut self, b: u8)
        requires mode { self.old.mode ≡ Cooked }
        ensures joined { self.new ≡ (if is_line_full self.old then rung self.old else joined b self.old) }
    {
        if self.input.size() + 1 >= TY_IBUFLEN {
            self.ring_bell();
        } else {
            self.input.join(b);
            self.echo_byte(b);
        }
    }

    /// Stops output or lets it go on, as the character says. Answers whether the character is input.
    fn flow(&mut self, b: u8) -> bool
        ensures flows { self.new ≡ record self.old { is_held = b == TY_STOPCH } }
        ensures input { result ≡ (not (b == TY_STOPCH) && not (b == TY_STRTCH)) }
    {
        self.held = b == TY_STOPCH;
        b != TY_STOPCH && b != TY_STRTCH
    }
}

/// A newline for a carriage return, and any other character as it is.
fn newline_for(b: u8) -> u8
    ensures same { result ≡ newline_for_return b }
{
    if b == TY_RETURN { TY_NEWLINE } else { b }
}
