//! The groups of a program: each loads the arguments of a call and makes it.

ghost use Rattle.std.specs.Prelude.{◌≡◌, ◌+◌, ◌≤◌, ◌<◌, ◌++◌, length, OnOk};
ghost use Rattle.workload.specs.Groups as spec;

use crate::draws::Draws;
use crate::shapes::{Argument, shape_at};
use asm_syntax::load;
use rv_isa::{Form, word_with};
use std::alloc::AllocError;

/// The register of the first argument.
const A0: u8 = 10;
/// The register of a call's number.
const A7: u8 = 17;

/// Appends a group of one of the first `kinds` shapes, in a program at this place.
pub(crate) fn push_group(
    words: &mut Vec<u32>,
    place: u32,
    kinds: u32,
    draws: &mut Draws,
) -> Result<(), AllocError>
    requires some { 0 < kinds }
    requires few { kinds ≤ 16 }
    requires low { place < 1048576 }
    ensures words { OnOk result (words.new.items ≡ words.old.items ++ spec.group place kinds draws.old) }
    ensures draws { OnOk result (draws.new ≡ spec.after_group kinds draws.old) }
    ensures size { OnOk result (length words.new.items ≤ length words.old.items + 8) }
{
    let shape = shape_at(draws.draw(kinds));
    push_loads(words, place, shape.args, draws)?;
    words.push(word_with(0x13, Form::I, A7, 0, 0, shape.call))?;
    words.push(word_with(0x73, Form::Whole, 0, 0, 0, 0))?;
    Ok(())
}

// Appends the instructions that load arguments, which are drawn from the first to the last.
fn push_loads(
    words: &mut Vec<u32>,
    place: u32,
    args: &[Argument],
    draws: &mut Draws,
) -> Result<(), AllocError>
    requires few { length args.now ≤ 3 }
    requires low { place < 1048576 }
    ensures words { OnOk result (words.new.items ≡ words.old.items ++ spec.loads_of place 10 args.now draws.old) }
    ensures draws { OnOk result (draws.new ≡ spec.after_arguments args.now draws.old) }
    ensures size { OnOk result (length words.new.items ≤ length words.old.items + 6) }
{
    for k in 0..args.len() {
        let value = value_of(args[k], place, draws);
        let (upper, lower) = load(A0 + k as u8, value);
        words.push(upper)?;
        words.push(lower)?;
    }
    Ok(())
}

// What an argument is in a program at this place.
fn value_of(arg: Argument, place: u32, draws: &mut Draws) -> u32
    requires low { place < 1048576 }
    ensures value { result ≡ spec.value_of place arg draws.old }
    ensures draws { draws.new ≡ spec.after_argument arg draws.old }
{
    match arg {
        Argument::Number(number) => number as u32,
        Argument::Between(low, high) => {
            low as u32 + draws.draw(high.saturating_sub(low) as u32 + 1)
        }
        Argument::Address(offset) => place + offset as u32,
    }
}
