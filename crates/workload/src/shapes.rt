//! The shapes of the groups: each is a call with its arguments.

ghost use Rattle.std.specs.Prelude.{◌≡◌, ◌≤◌, ◌<◌, length};
ghost use Rattle.xinu_base.specs.Syscalls.{CALLS};
ghost use Rattle.workload.specs.Groups.{shape_at};
ghost use Rattle.workload.specs.Shapes.{seen};

/// An argument of a call.
#[derive(Clone, Copy)]
pub(crate) enum Argument {
    /// This number.
    Number(u16),
    /// A number that is drawn from the first to the second of these.
    Between(u16, u16),
    /// The address so many bytes after the place of the program.
    Address(u16),
}

/// A call with its arguments.
#[derive(Clone, Copy)]
pub(crate) struct Shape {
    /// The number of the call.
    pub call: u32,
    /// The arguments, in the order of the registers from a0 on.
    pub args: &'static [Argument],
}

/// The shape of this number.
pub(crate) fn shape_at(number: u32) -> Shape
    requires few { number < 16 }
    ensures shape { seen result ≡ shape_at number }
    ensures call { result.call ≤ CALLS }
    ensures args { length result.args.now ≤ 3 }
{
    match number {
        0 => calling(1, &[]),
        1 => calling(6, &[]),
        2 => calling(26, &[Argument::Between(0, 3)]),
        3 => calling(24, &[Argument::Between(0, 3)]),
        4 => calling(21, &[Argument::Between(1, 4), Argument::Between(0, 999)]),
        5 => calling(19, &[Argument::Between(4, 7)]),
        6 => calling(10, &[Argument::Between(8, 71)]),
        7 => calling(41, &[Argument::Number(0), Argument::Between(32, 95)]),
        8 => calling(14, &[Argument::Between(0, 2)]),
        9 => calling(7, &[Argument::Between(1, 4), Argument::Between(10, 13)]),
        10 => calling(18, &[Argument::Between(4, 7)]),
        11 => calling(22, &[]),
        12 => calling(29, &[Argument::Number(0)]),
        13 => calling(28, &[Argument::Between(8, 23), Argument::Between(1, 4)]),
        14 => calling(
            36,
            &[
                Argument::Number(3),
                Argument::Address(0),
                Argument::Address(4),
            ],
        ),
        _ => calling(
            39,
            &[
                Argument::Between(4, 5),
                Argument::Address(0),
                Argument::Between(1, 600),
            ],
        ),
    }
}

// A call with these arguments.
fn calling(call: u32, args: &'static [Argument]) -> Shape
    ensures call { result.call ≡ call }
    ensures args { result.args ≡ args.entry }
{
    Shape { call, args }
}
