//! Why a command wasn't carried out, as it is told in words: what is wrong with its arguments, or which file can't be read or written.

ghost use Rattle.std.specs.Prelude.{◌≡◌, option_map};
ghost use Rattle.host_port.specs.Outside.{Outside};
ghost use Rattle.run_inputs.specs.Causes as spec;
ghost use Rattle.run_inputs.specs.declared.refusals.Refusal.TheVariants as variant;

use crate::refusals::Refusal;
use command_words::WordsFault;

/// Why a command wasn't carried out.
#[derive(Clone, Copy)]
pub enum Cause<'a> {
    /// This is wrong with its words.
    Words(WordsFault<'a>),
    /// The file of this name can't be read.
    Unread(&'a str),
    /// The file of this name can't be written.
    Unwritten(&'a str),
    /// As `run` refuses it.
    Refused(Refusal),
}

impl<'a> Cause<'a> {
    /// The refusal as which it is told, by its status and its text.
    pub fn refusal(self) -> Refusal
        ensures refusal { result ≡ spec.refusal_in self.entry }
    {
        match self {
            Cause::Words(_) => Refusal::Usage,
            Cause::Unread(_) | Cause::Unwritten(_) => Refusal::HostFault,
            Cause::Refused(refusal) => refusal,
        }
    }
}

impl<'a> From<Refusal> for Cause<'a> {
    ghost use Rattle.std.specs.Prelude.{◌≡◌};
    ghost use Rattle.run_inputs.specs.declared.causes.Cause.TheVariants.{Refused};

    ghost from_gives = { λ refusal cause. cause ≡ Refused refusal };

    fn from(refusal: Refusal) -> Cause<'a> {
        Cause::Refused(refusal)
    }
}

/// The cause if the file of this name was refused.
pub(crate) fn unread<'a>(refusal: Refusal, name: &'a str) -> Cause<'a>
    ensures refusal { spec.refusal_in result ≡ refusal }
    ensures last { (new : Outside) → (refusal ≡ variant.HostFault → spec.WasFetchedLast name.entry.now new) → spec.NamesLast result new }
{
    match refusal {
        Refusal::HostFault => Cause::Unread(name),
        _ => Cause::Refused(refusal),
    }
}

/// The cause if the file that may be named was refused.
pub(crate) fn unread_if_named<'a>(refusal: Refusal, name: Option<&'a str>) -> Cause<'a>
    ensures refusal { spec.refusal_in result ≡ refusal }
    ensures last { (new : Outside) → (refusal ≡ variant.HostFault → spec.MayBeFetchedLast (option_map (λ s. s.now) name.entry) new) → spec.NamesLast result new }
{
    match name {
        Some(name) => unread(refusal, name),
        None => Cause::Refused(refusal),
    }
}
