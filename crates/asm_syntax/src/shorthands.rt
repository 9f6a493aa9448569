//! The shorthands for instructions, with their operands.

ghost use Rattle.std.specs.Prelude.{◌≡◌, map};
ghost use Rattle.asm_syntax.specs.CodeOperands.{seen_operand};
ghost use Rattle.asm_syntax.specs.CodeStatements.{seen_statement, IsProper};
ghost use Rattle.asm_syntax.specs.Meanings as meanings;
ghost use Rattle.asm_syntax.specs.Statements.{made_of};
ghost use Rattle.asm_syntax.specs.Values.{fitting};

use crate::calls::call_of;
use crate::encoding::{load, word_of};
use crate::operands::Operand;
use crate::statements::Statement;
use crate::words::register_of;
use rv_isa::{Form, word_with};

/// `li`: a register and a number.
pub(crate) fn load_number<'a>(operands: &[Operand<'a>]) -> Statement<'a>
    ensures statement { seen_statement result ≡ made_of meanings.Li (fitting (meanings.slots_of meanings.Li) (map seen_operand operands.now)) }
    ensures proper { IsProper result }
{
    match operands {
        [Operand::Name(a), Operand::Number(n)] => match register_of(a) {
            Some(rd) => {
                if -2_147_483_648 <= *n && *n <= 4_294_967_295 {
                    let (upper, lower) = load(rd, word_of(*n));
                    Statement::Two(upper, lower)
                } else {
                    Statement::Excessive
                }
            }
            None => Statement::Unresolved,
        },
        [Operand::Name(_), Operand::Name(_)] => Statement::Unresolved,
        _ => Statement::Malformed,
    }
}

/// `la`: a register and a label.
pub(crate) fn load_address<'a>(operands: &[Operand<'a>]) -> Statement<'a>
    ensures statement { seen_statement result ≡ made_of meanings.La (fitting (meanings.slots_of meanings.La) (map seen_operand operands.now)) }
    ensures proper { IsProper result }
{
    match operands {
        [Operand::Name(a), Operand::Name(label)] => match register_of(a) {
            Some(rd) => Statement::AddressOf { rd, label: *label },
            None => Statement::Unresolved,
        },
        _ => Statement::Malformed,
    }
}

/// `mv`: two registers.
pub(crate) fn copy<'a>(operands: &[Operand<'a>]) -> Statement<'a>
    ensures statement { seen_statement result ≡ made_of meanings.Mv (fitting (meanings.slots_of meanings.Mv) (map seen_operand operands.now)) }
    ensures proper { IsProper result }
{
    match operands {
        [Operand::Name(a), Operand::Name(b)] => match (register_of(a), register_of(b)) {
            (Some(rd), Some(rs)) => Statement::One(word_with(0x13, Form::I, rd, rs, 0, 0)),
            _ => Statement::Unresolved,
        },
        _ => Statement::Malformed,
    }
}

/// `nop`: no operand.
pub(crate) fn nothing<'a>(operands: &[Operand<'a>]) -> Statement<'a>
    ensures statement { seen_statement result ≡ made_of meanings.Nop (fitting (meanings.slots_of meanings.Nop) (map seen_operand operands.now)) }
    ensures proper { IsProper result }
{
    if operands.is_empty() {
        Statement::One(word_with(0x13, Form::I, 0, 0, 0, 0))
    } else {
        Statement::Malformed
    }
}

/// `j`: a label.
pub(crate) fn jump<'a>(operands: &[Operand<'a>]) -> Statement<'a>
    ensures statement { seen_statement result ≡ made_of meanings.Jump (fitting (meanings.slots_of meanings.Jump) (map seen_operand operands.now)) }
    ensures proper { IsProper result }
{
    match operands {
        [Operand::Name(label)] => Statement::JumpTo {
            rd: 0,
            label: *label,
        },
        _ => Statement::Malformed,
    }
}

/// `ret`: no operand.
pub(crate) fn give_back<'a>(operands: &[Operand<'a>]) -> Statement<'a>
    ensures statement { seen_statement result ≡ made_of meanings.Ret (fitting (meanings.slots_of meanings.Ret) (map seen_operand operands.now)) }
    ensures proper { IsProper result }
{
    if operands.is_empty() {
        Statement::One(word_with(0x67, Form::I, 0, 1, 0, 0))
    } else {
        Statement::Malformed
    }
}

/// `sys`: the name of a call.
pub(crate) fn system_call<'a>(operands: &[Operand<'a>]) -> Statement<'a>
    ensures statement { seen_statement result ≡ made_of meanings.Sys (fitting (meanings.slots_of meanings.Sys) (map seen_operand operands.now)) }
    ensures proper { IsProper result }
{
    match operands {
        [Operand::Name(name)] => match call_of(name) {
            Some(n) => Statement::Two(word_with(0x13, Form::I, 17, 0, 0, n), 0x73),
            None => Statement::Unresolved,
        },
        _ => Statement::Malformed,
    }
}
