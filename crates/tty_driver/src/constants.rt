//! The sizes of the rings and the characters with a meaning, by the book's names (chapter 15, `tty.h`).

/// The most items of input, committed or in the line.
pub const TY_IBUFLEN: usize = 128;

/// The most bytes of output.
pub const TY_OBUFLEN: usize = 64;

/// The most bytes of echo.
pub const TY_EBUFLEN: usize = 20;

/// Control-D: on an empty line, the end mark.
pub const TY_EOFCH: u8 = 0x04;

/// The bell.
pub const TY_BELL: u8 = 0x07;

/// Backspace: erases the last character of the line, and steps back on the screen.
pub const TY_BACKSP: u8 = 0x08;

/// A line feed, which ends the line.
pub const TY_NEWLINE: u8 = 0x0a;

/// A carriage return.
pub const TY_RETURN: u8 = 0x0d;

/// Control-Q: output goes on.
pub const TY_STRTCH: u8 = 0x11;

/// Control-S: output stops.
pub const TY_STOPCH: u8 = 0x13;

/// Control-U: kills the line.
pub const TY_KILLCH: u8 = 0x15;

/// A blank, the first character that isn't a control character.
pub const TY_BLANK: u8 = 0x20;

/// The first column of a control character's echo.
pub const TY_UPARROW: u8 = 0x5e;

/// The last control character, delete.
pub const DEL: u8 = 0x7f;
