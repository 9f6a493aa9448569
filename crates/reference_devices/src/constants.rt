//! The console's constants, by the names that the book gives them (chapter 15, `tty.h`).

/// The most items of input, committed or in the line.
pub(crate) const TY_IBUFLEN: usize = 128;

/// The most bytes of echo.
pub(crate) const TY_EBUFLEN: usize = 20;

/// Control-D on an empty line: the end mark.
pub(crate) const TY_EOFCH: u8 = 0x04;

/// The bell, which says that there is no room.
pub(crate) const TY_BELL: u8 = 0x07;

/// Backspace: erases the last character of the line, and steps back on the screen.
pub(crate) const TY_BACKSP: u8 = 0x08;

/// A line feed, which ends the line.
pub(crate) const TY_NEWLINE: u8 = 0x0a;

/// A carriage return.
pub(crate) const TY_RETURN: u8 = 0x0d;

/// Control-Q: output goes on.
pub(crate) const TY_STRTCH: u8 = 0x11;

/// Control-S: output stops.
pub(crate) const TY_STOPCH: u8 = 0x13;

/// Control-U: kills the line.
pub(crate) const TY_KILLCH: u8 = 0x15;

/// A blank, the first character that isn't a control character.
pub(crate) const TY_BLANK: u8 = 0x20;

/// The first column of a control character's echo.
pub(crate) const TY_UPARROW: u8 = 0x5e;

/// The last control character, delete.
pub(crate) const DEL: u8 = 0x7f;
