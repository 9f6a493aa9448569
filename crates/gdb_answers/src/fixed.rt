//! What is always answered the same: changes are refused, and names that aren't known have the empty answer.

ghost use Rattle.std.specs.Prelude.{◌≡◌, MatchOption, None, Some};
ghost use Rattle.gdb_answers.specs.Answers as spec;

use gdb_packets::Command;

/// What a packet is answered in any state, if it is.
pub(crate) fn fixed(command: Command) -> Option<&'static [u8]>
    ensures answered { MatchOption result (spec.fixed command ≡ None) (λ text. spec.fixed command ≡ Some text.now) }
{
    match command {
        Command::Change | Command::Malformed => Some(b"E01"),
        Command::Unknown => Some(b""),
        Command::NoAcks => Some(b"OK"),
        Command::Attached => Some(b"1"),
        Command::Resumptions => Some(b"vCont;c;C;s;S"),
        Command::Supported => Some(supported()),
        Command::Why
        | Command::Registers
        | Command::Register(_)
        | Command::Memory(_, _)
        | Command::Look(_)
        | Command::Go(_)
        | Command::IsAlive(_)
        | Command::Set(_)
        | Command::Clear(_)
        | Command::Step(_)
        | Command::Continue
        | Command::ContinueOne(_)
        | Command::StepBack
        | Command::ContinueBack
        | Command::Kill
        | Command::Detach
        | Command::Checksum(_, _)
        | Command::CurrentThread
        | Command::Monitor
        | Command::Read(_, _, _) => None,
    }
}

// What the program supports.
fn supported() -> &'static [u8]
    ensures supported { result.now ≡ spec.supported }
{
    b"PacketSize=4000;QStartNoAckMode+;qXfer:features:read+;qXfer:threads:read+;ReverseStep+;ReverseContinue+;vContSupported+"
}
