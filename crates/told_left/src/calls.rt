//! A call in words.

ghost use Rattle.std.specs.Prelude.{◌≡◌, ◌∷◌, ◌++◌, ◌≤◌, OnOk, length};
ghost use Rattle.told_left.specs.Calls as spec;
ghost use Rattle.xinu_model.specs.Text.{signed_field};

use itoa::Buffer;
use std::alloc::AllocError;
use xinu_base::{Call, call_args, call_name, is_call};

/// Appends the name of a call and its arguments.
#[tactic(auto, unfolding(crate::specs::Calls::call_words))]
pub(crate) fn push_call(told: &mut Vec<u8>, call: &Call) -> Result<(), AllocError>
    ensures call { OnOk result (told.new.items ≡ told.old.items ++ spec.call_words call.now) }
{
    if is_call(call.number) {
        told.extend_from_slice(call_name(call.number).as_bytes())?;
        push_numbers(told, &call.args[..call_args(call.number)])
    } else {
        told.extend_from_slice(b"unknown")?;
        push_numbers(told, &[call.number])
    }
}

// Appends numbers, with a blank before each.
fn push_numbers(told: &mut Vec<u8>, numbers: &[u32]) -> Result<(), AllocError>
    ensures numbers { OnOk result (told.new.items ≡ told.old.items ++ spec.after_blanks numbers.now) }
{
    for number in numbers {
        push_number(told, *number)?;
    }
    Ok(())
}

// Appends a number after a blank.
fn push_number(told: &mut Vec<u8>, number: u32) -> Result<(), AllocError>
    ensures number { OnOk result (told.new.items ≡ told.old.items ++ (32 ∷ signed_field number)) }
{
    let mut digits = Buffer::new();
    told.push(b' ')?;
    told.extend_from_slice(digits.format(number.cast_signed()).as_bytes())
}
