//! Finished lines of a console.

ghost use Rattle.std.specs.Prelude.{◌≡◌, ◌==◌, map, not, is_some, IfNone, IfSome};
ghost use Rattle.uses_console.specs.Lines.{with_none_committed};
ghost use Rattle.xinu_model.specs.Console.Receiving.{received};
ghost use Rattle.xinu_model.specs.Console.State.{byte_of};

use arrayvec::ArrayVec;
use tty_driver::{Item, Tty};

/// A byte is typed. Answers the line that it finishes, or the end mark; `None` if nothing is finished yet.
pub(crate) fn type_byte(tty: &mut Tty, b: u8) -> Option<ArrayVec<u8, 128>>
    ensures finished { is_some result ≡ not ((received b tty.old).count == 0) }
    ensures line { IfSome result (λ line. line.items ≡ map byte_of (received b tty.old).console.committed) }
    ensures left { IfSome result (λ _. tty.new ≡ with_none_committed (received b tty.old).console) }
    ensures goes_on { IfNone result (tty.new ≡ (received b tty.old).console) }
{
    if tty.receive(b) == 0 {
        return None;
    }
    Some(take_line(tty))
}

// Takes all that can be taken.
fn take_line(tty: &mut Tty) -> ArrayVec<u8, 128>
    ensures line { result.items ≡ map byte_of tty.old.committed }
    ensures left { tty.new ≡ with_none_committed tty.old }
{
    let committed = tty.sizes().committed;
    let mut line = ArrayVec::new();
    while line.len() < committed {
        let item = tty.take();
        line.push(byte(item));
    }
    line
}

// An item as a byte.
fn byte(item: Item) -> u8
    ensures byte { result ≡ byte_of item }
{
    match item {
        Item::Char(b) => b,
        Item::End => 4,
    }
}
