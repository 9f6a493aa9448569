//! The console as one value, and what can be read of it.

ghost use Rattle.std.specs.Prelude.{◌≡◌, ◌↔◌, IsTrue, ◌<◌, length, IfOk};
ghost use Rattle.xinu_model.specs.Console.Sound.{IsSoundConsole};
ghost use Rattle.xinu_model.specs.Console.State.{first_console, with_next_item};
ghost use Rattle.tty_driver.specs.Sizes.{sizes_of};

use crate::constants::{TY_EBUFLEN, TY_OBUFLEN};
use crate::input::Input;
use crate::rings::{are_same, copy_of};
use circular_buffer::HeapCircularBuffer;
use std::alloc::{AllocError, Global};
use std::marker::Model;
use xinu_base::{Item, NoMemory, TtyMode};

/// How much the console holds.
#[derive(Clone, Copy, PartialEq, Eq)]
pub struct TtySizes {
    /// How many items can be taken.
    pub committed: usize,
    /// How many bytes the line has.
    pub line: usize,
    /// How many bytes of output there are.
    pub output: usize,
    /// How many bytes of echo there are.
    pub echo: usize,
    /// Whether output is held.
    pub held: bool,
}

/// The console: its mode, its input, its output and its echo. A clone is equal, and takes memory.
pub struct Tty {
    pub(crate) mode: TtyMode,
    // Whether echo is on.
    pub(crate) echoes: bool,
    // Whether output is held.
    pub(crate) held: bool,
    pub(crate) input: Input,
    pub(crate) output: HeapCircularBuffer<u8>,
    pub(crate) echo: HeapCircularBuffer<u8>,
}

impl Drop for Tty {
    fn drop(self) {
        let Tty {
            mode: _mode,
            echoes: _echoes,
            held: _held,
            input: _input,
            output: _output,
            echo: _echo,
        } = self;
    }
}

impl Model for Tty {
    ghost use Rattle.tty_driver.specs.State.{console_of, IsTty};
    ghost use Rattle.xinu_model.specs.Console.State.{Console};

    ghost Value = { Console };

    ghost view = { console_of };

    ghost invariant = { IsTty };
}

impl Tty {
    /// The console at the start: cooked mode, echo on, output not held, and nothing received or to be sent.
    ///
    /// # Errors
    ///
    /// `NoMemory` if there is no memory for the rings.
    pub fn new(alloc: Global) -> Result<Self, NoMemory>
        ensures starts { IfOk result (λ t. t ≡ first_console) }
    {
        let input = Input::new(alloc).map_err(|_| NoMemory)?;
        let output = HeapCircularBuffer::with_capacity(alloc, TY_OBUFLEN).map_err(|_| NoMemory)?;
        let echo = HeapCircularBuffer::with_capacity(alloc, TY_EBUFLEN).map_err(|_| NoMemory)?;
        Ok(Tty {
            mode: TtyMode::Cooked,
            echoes: true,
            held: false,
            input,
            output,
            echo,
        })
    }

    /// Whether another console is equal, in all that a clause sees.
    pub fn equals(&self, other: &Self) -> bool
        ensures equal { IsTrue result ↔ (self.now ≡ other.now) }
    {
        self.mode == other.mode
            && self.echoes == other.echoes
            && self.held == other.held
            && are_same(&self.echo, &other.echo)
            && are_same(&self.output, &other.output)
            && self.input.equals(&other.input)
    }

    /// How input is edited.
    pub fn mode(&self) -> TtyMode
        ensures mode { result ≡ self.now.mode }
    {
        self.mode
    }

    /// How much the console holds, and whether output is held. Input, output and echo have room for what they hold, and there is a line
    /// only in cooked mode (`xinu_model/specs/Console/Sound`).
    pub fn sizes(&self) -> TtySizes
        ensures sizes { result ≡ sizes_of self.now }
        ensures sound { IsSoundConsole self.now }
    {
        TtySizes {
            committed: self.input.committed(),
            line: self.input.line(),
            output: self.output.len(),
            echo: self.echo.len(),
            held: self.held,
        }
    }

    /// Takes the first item that can be taken. There must be one.
    pub fn take(&mut self) -> Item
        requires item { 0 < length self.old.committed }
        ensures taken { self.old ≡ with_next_item result self.new }
    {
        self.input.take()
    }
}

impl Clone for Tty {
    ghost is_clone = { λ v w. w ≡ v };

    fn clone(&self) -> Result<Self, AllocError> {
        let input = self.input.clone()?;
        let output = copy_of(&self.output)?;
        let echo = copy_of(&self.echo)?;
        Ok(Tty {
            mode: self.mode,
            echoes: self.echoes,
            held: self.held,
            input,
            output,
            echo,
        })
    }
}
