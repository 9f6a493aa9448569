//! How a call begins: as its row says, or it is on files and takes effect as it is made.

ghost use Rattle.std.specs.Prelude.{◌≡◌};
ghost use Rattle.kernel_state.specs.Beginnings.{next_of};

use xinu_base::Next;

/// How a call begins. What it came to is then as `BeginsAs` of `specs/Beginnings.antt` says.
#[derive(Clone, Copy)]
pub enum Begun {
    /// As its row says.
    ByRow(Next),
    /// It is a call on files with none before it, and took effect as it was made, with this reply.
    AtOnce(i32),
}

impl Begun {
    /// How the call goes: one that took effect as it was made is answered.
    pub fn next(self) -> Next
        ensures next { result ≡ next_of self }
    {
        match self {
            Begun::ByRow(next) => next,
            Begun::AtOnce(reply) => Next::Returns(reply),
        }
    }
}
