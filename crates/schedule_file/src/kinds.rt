//! The kinds of lines, by the token that a line begins with.

ghost use Rattle.std.specs.Prelude.{◌≡◌};
ghost use Rattle.schedule_file.specs.LineKinds.{kinds, kind_among};

use xinu_base::Event;

/// What the tokens after a line's first token mean.
#[derive(Clone, Copy)]
pub(crate) enum Kind {
    /// One token, which counts events of this kind.
    Counted(Event),
    /// One token, which counts rounds of the machine.
    Rounds,
    /// Words of two hexadecimal digits, each a character that is typed.
    Typed,
    /// No token: the event happens once.
    Once(Event),
}

/// The kind of the lines that begin with this token.
pub(crate) fn kind_of(name: &[u8]) -> Option<Kind>
    ensures kind { result ≡ kind_among kinds name.now }
{
    let kind = if name == b"step".as_slice() {
        Kind::Counted(Event::Step)
    } else if name == b"tick".as_slice() {
        Kind::Counted(Event::Tick)
    } else if name == b"tx".as_slice() {
        Kind::Counted(Event::Tx)
    } else if name == b"disk0".as_slice() {
        Kind::Counted(Event::Disk0)
    } else if name == b"disk1".as_slice() {
        Kind::Counted(Event::Disk1)
    } else if name == b"round".as_slice() {
        Kind::Rounds
    } else if name == b"type".as_slice() {
        Kind::Typed
    } else if name == b"fail0".as_slice() {
        Kind::Once(Event::Fail0)
    } else if name == b"fail1".as_slice() {
        Kind::Once(Event::Fail1)
    } else if name == b"dump".as_slice() {
        Kind::Once(Event::Dump)
    } else {
        return None;
    };
    Some(kind)
}
