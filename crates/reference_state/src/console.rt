//! The console (book, chapter 15).

use std::marker::Model;
use xinu_base::{Item, TtyMode};

/// The console: its mode, what was received, and what it will send. The first of each list is first.
pub struct Console {
    /// How it treats characters.
    pub mode: TtyMode,
    /// Whether echo is on.
    pub echoes: bool,
    /// Whether output is held.
    pub is_held: bool,
    /// The items that can be taken.
    pub committed: Vec<Item>,
    /// The line that is being typed.
    pub line: Vec<u8>,
    /// The bytes of output.
    pub output: Vec<u8>,
    /// The bytes of echo.
    pub echo: Vec<u8>,
}

impl Drop for Console {
    fn drop(self) {
        let Console {
            mode: _mode,
            echoes: _echoes,
            is_held: _is_held,
            committed: _committed,
            line: _line,
            output: _output,
            echo: _echo,
        } = self;
    }
}

impl Model for Console {
    ghost use Rattle.xinu_model.specs.Console.State as model;

    ghost Value = { model.Console };

    ghost view = { λ c. record {
      mode = c.mode;
      echoes = c.echoes;
      is_held = c.is_held;
      committed = c.committed.items;
      line = c.line.items;
      output = c.output.items;
      echo = c.echo.items;
    } };
}
