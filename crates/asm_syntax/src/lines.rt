//! Lines: the labels that begin one, and the statement after them.

ghost use Rattle.std.specs.Prelude.{◌≡◌, ◌<◌, [], ◌∷◌, length, map, true, false, Some, None, MatchOption, IfSome};
ghost use Rattle.asm_syntax.specs.CodeLines.{skip, is_named, is_statement, is_blank_token, starts_with_colon};
ghost use Rattle.asm_syntax.specs.CodeMeanings.{seen_meaning, HasRoom};
ghost use Rattle.asm_syntax.specs.CodeOperands.{seen_operand};
ghost use Rattle.asm_syntax.specs.CodeStatements.{seen_statement, IsProper};
ghost use Rattle.asm_syntax.specs.CodeTokens.{seen};
ghost use Rattle.asm_syntax.specs.Meanings.{meaning_of, slots_of};
ghost use Rattle.asm_syntax.specs.Operands.{operands_of};
ghost use Rattle.asm_syntax.specs.Numbers as numbers;
ghost use Rattle.asm_syntax.specs.Statements as spec;
ghost use Rattle.asm_syntax.specs.Tokens as tokens;
ghost use Rattle.asm_syntax.specs.Tokens.{tokens_of, solid};
ghost use Rattle.asm_syntax.specs.Values.{fitting};

use crate::directives::{align, ascii, byte, entry, header, word, zeros};
use crate::instructions::instruction;
use crate::meanings::{Meaning, meaning_of};
use crate::operands::{Operand, operands_in};
use crate::shorthands::{copy, give_back, jump, load_address, load_number, nothing, system_call};
use crate::statements::{HeaderField, Statement};
use crate::tokens::{Token, next_token};
use crate::words::is_name;

/// The first label of a line, and the line after its colon. `None` if and only if the line doesn't begin with a label.
pub fn first_label(line: &[u8]) -> Option<(&[u8], &[u8])>
    ensures label { MatchOption result (spec.line_of line.now ≡ spec.unlabelled (tokens_of line.now)) (λ cut. spec.line_of line.now ≡ spec.with_label cut.0.now (spec.line_of cut.1.now)) }
    ensures said { MatchOption result (spec.said_line (tokens_of line.now) ≡ spec.said (tokens_of line.now)) (λ cut. spec.said_line (tokens_of line.now) ≡ spec.said_line (tokens_of cut.1.now)) }
    ensures shorter { IfSome result (λ cut. length cut.1.now < length line.now) }
{
    let (token, rest) = next_word(line)?;
    let name = name_of(token)?;
    let after = colon_after(rest)?;
    Some((name, after))
}

/// The statement of a line without labels. Registers in it are below 32, and a text in it stands for bytes.
pub fn statement_in(line: &[u8]) -> Statement<'_>
    ensures statement { seen_statement result ≡ spec.statement_of (tokens_of line.now) }
    ensures proper { IsProper result }
{
    match next_word(line) {
        Some((token, rest)) => statement_from(token, rest),
        None => Statement::Empty,
    }
}

/// The word of a line without labels, and the line of its operands after it. `None` if and only if the line doesn't begin with a word that
/// can name an instruction or a directive, or if neither a blank nor the end of the line follows the word.
pub fn word_in(line: &[u8]) -> Option<(&[u8], &[u8])>
    ensures word { MatchOption result (spec.said (tokens_of line.now) ≡ None) (λ cut. spec.said (tokens_of line.now) ≡ Some (cut.0.now, tokens_of cut.1.now)) }
{
    let (token, rest) = next_word(line)?;
    let name = word_of_token(token)?;
    let after = operands_after(rest)?;
    Some((name, after))
}

// The word that a token is, if it can name an instruction or a directive.
fn word_of_token(token: Token<'_>) -> Option<&[u8]>
    ensures word { MatchOption result (is_statement (seen token.entry) ≡ false) (λ name. seen token.entry ≡ tokens.Word name.now) }
    ensures named { IfSome result (λ name. spec.can_name name.now ≡ true) }
{
    match token {
        Token::Word(name) => { if can_name(name) { Some(name) } else { None } }
        _ => None,
    }
}

// The line of the operands after a word.
fn operands_after(line: &[u8]) -> Option<&[u8]>
    ensures operands { MatchOption result (spec.after_word (tokens_of line.now) ≡ None) (λ after. spec.after_word (tokens_of line.now) ≡ Some (tokens_of after.now)) }
{
    match next_token(line) {
        None => Some(&[]),
        Some((Token::Blank, after)) => Some(after),
        Some(_) => None,
    }
}

// The first token that isn't a blank, and the line after it.
fn next_word(line: &[u8]) -> Option<(Token<'_>, &[u8])>
    ensures tokens { MatchOption result (skip (tokens_of line.now) ≡ []) (λ cut. skip (tokens_of line.now) ≡ seen cut.0 ∷ tokens_of cut.1.now) }
    ensures solid { IfSome result (λ cut. is_blank_token (seen cut.0) ≡ false) }
    ensures shorter { IfSome result (λ cut. length cut.1.now < length line.now) }
{
    let mut rest = line;
    while let Some((token, next)) = next_token(rest) {
        match token {
            Token::Blank => rest = next,
            _ => return Some((token, next)),
        }
    }
    None
}

// The name that a token is.
fn name_of(token: Token<'_>) -> Option<&[u8]>
    ensures name { MatchOption result (is_named (seen token.entry) ≡ false) (λ name. seen token.entry ≡ tokens.Word name.now) }
    ensures named { IfSome result (λ name. numbers.is_name name.now ≡ true) }
{
    match token {
        Token::Word(name) => { if is_name(name) { Some(name) } else { None } }
        _ => None,
    }
}

// The line after the colon that it begins with.
fn colon_after(line: &[u8]) -> Option<&[u8]>
    ensures colon { MatchOption result (starts_with_colon (tokens_of line.now) ≡ false) (λ after. tokens_of line.now ≡ tokens.Colon ∷ tokens_of after.now) }
    ensures shorter { IfSome result (λ after. length after.now < length line.now) }
{
    match next_token(line) {
        Some((Token::Colon, after)) => Some(after),
        _ => None,
    }
}

// The statement that begins with a token.
fn statement_from<'a>(token: Token<'a>, rest: &'a [u8]) -> Statement<'a>
    requires solid { is_blank_token (seen token) ≡ false }
    ensures statement { seen_statement result ≡ spec.statement_of (seen token.entry ∷ tokens_of rest.now) }
    ensures proper { IsProper result }
{
    match token {
        Token::Word(name) => {
            if can_name(name) {
                named(name, rest)
            } else {
                Statement::Malformed
            }
        }
        _ => Statement::Malformed,
    }
}

// The statement of a word that can name one.
fn named<'a>(name: &[u8], rest: &'a [u8]) -> Statement<'a>
    requires name { spec.can_name name.now ≡ true }
    ensures statement { seen_statement result ≡ spec.statement_of (tokens.Word name.now ∷ tokens_of rest.now) }
    ensures proper { IsProper result }
{
    match next_token(rest) {
        None => stated(name, &[]),
        Some((Token::Blank, after)) => stated(name, after),
        Some(_) => Statement::Malformed,
    }
}

// The statement of a word with its operands.
fn stated<'a>(name: &[u8], line: &'a [u8]) -> Statement<'a>
    ensures statement { seen_statement result ≡ spec.stated (meaning_of name.now) (operands_of (solid (tokens_of line.now))) }
    ensures proper { IsProper result }
{
    match operands_in(line) {
        None => Statement::Malformed,
        Some(operands) => match meaning_of(name) {
            None => Statement::Unresolved,
            Some(meaning) => made(meaning, operands.as_slice()),
        },
    }
}

// The statement of a meaning with its operands.
fn made<'a>(meaning: Meaning, operands: &[Operand<'a>]) -> Statement<'a>
    requires room { HasRoom meaning }
    ensures statement { seen_statement result ≡ spec.made_of (seen_meaning meaning) (fitting (slots_of (seen_meaning meaning)) (map seen_operand operands.now)) }
    ensures proper { IsProper result }
{
    match meaning {
        Meaning::Instruction(row) => instruction(row, operands),
        Meaning::Li => load_number(operands),
        Meaning::La => load_address(operands),
        Meaning::Mv => copy(operands),
        Meaning::Nop => nothing(operands),
        Meaning::Jump => jump(operands),
        Meaning::Ret => give_back(operands),
        Meaning::Sys => system_call(operands),
        Meaning::DotWord => word(operands),
        Meaning::DotByte => byte(operands),
        Meaning::DotZero => zeros(operands),
        Meaning::DotAscii => ascii(operands),
        Meaning::DotAlign => align(operands),
        Meaning::DotPlace => header(HeaderField::PlaceField, operands),
        Meaning::DotEntry => entry(operands),
        Meaning::DotPriority => header(HeaderField::PriorityField, operands),
        Meaning::DotStack => header(HeaderField::StackField, operands),
    }
}

// Whether a word can name an instruction or a directive.
fn can_name(word: &[u8]) -> bool
    ensures name { result ≡ spec.can_name word.now }
{
    match word {
        [b'.', name @ ..] => is_name(name),
        _ => is_name(word),
    }
}
