//! The operands of a statement.

ghost use Rattle.std.specs.Prelude.{◌≡◌, ◌<◌, ◌==◌, [], ◌∷◌, ◌++◌, length, take, map, MatchOption, IfSome, Some, None};
ghost use Rattle.std.specs.List.{position};
ghost use Rattle.asm_syntax.specs.CodeOperands.{seen_operand, first_four};
ghost use Rattle.asm_syntax.specs.CodeTokens.{seen};
ghost use Rattle.asm_syntax.specs.Operands as spec;
ghost use Rattle.asm_syntax.specs.Tokens.{tokens_of, solid};

use crate::numbers::number_in;
use crate::texts::is_text;
use crate::tokens::{Token, next_solid};
use crate::words::is_name;
use arrayvec::ArrayVec;

/// An operand.
#[derive(Clone, Copy, Default, Drop)]
pub enum Operand<'a> {
    /// A name where the number before a register has to be.
    #[default]
    NamedOffset,
    /// A name.
    Name(&'a [u8]),
    /// A number.
    Number(i64),
    /// A number before a name in parentheses.
    Offset(i64, &'a [u8]),
    /// A text, as it is written.
    Text(&'a [u8]),
}

/// The first four operands of those that commas separate. There may be none, and each word takes at most three. `None` if and only if the
/// line has anything but such operands.
pub fn operands_in(line: &[u8]) -> Option<ArrayVec<Operand<'_>, 4>>
    ensures operands { MatchOption result (spec.operands_of (solid (tokens_of line.now)) ≡ None) (λ operands. first_four (spec.operands_of (solid (tokens_of line.now))) ≡ Some (map seen_operand operands.items)) }
{
    match next_solid(line) {
        Some(_) => separated(line),
        None => Some(ArrayVec::new()),
    }
}

// The first four operands of those that commas separate, of which there has to be one.
fn separated(line: &[u8]) -> Option<ArrayVec<Operand<'_>, 4>>
    ensures operands { MatchOption result (spec.separated (solid (tokens_of line.now)) ≡ None) (λ operands. first_four (spec.separated (solid (tokens_of line.now))) ≡ Some (map seen_operand operands.items)) }
{
    let mut operands = ArrayVec::new();
    let mut rest = line;
    while let Some((operand, after)) = next_operand(rest) {
        keep(&mut operands, operand);
        match after {
            Some(next) => rest = next,
            None => return Some(operands),
        }
    }
    None
}

// Appends an operand to others, unless there are four.
fn keep<'a>(operands: &mut ArrayVec<Operand<'a>, 4>, operand: Operand<'a>)
    ensures kept { map seen_operand operands.new.items ≡ take 4 (map seen_operand operands.old.items ++ seen_operand operand.entry ∷ []) }
{
    if !operands.is_full() {
        operands.push(operand);
    }
}

// The first operand, and the line after its comma if there is one.
fn next_operand(line: &[u8]) -> Option<(Operand<'_>, Option<&[u8]>)>
    ensures operands { MatchOption result (spec.separated (solid (tokens_of line.now)) ≡ None) (λ cut. MatchOption cut.1 (spec.separated (solid (tokens_of line.now)) ≡ Some (seen_operand cut.0 ∷ [])) (λ rest. spec.separated (solid (tokens_of line.now)) ≡ spec.before (Some (seen_operand cut.0)) (spec.separated (solid (tokens_of rest.now))))) }
    ensures shorter { IfSome result (λ cut. IfSome cut.1 (λ rest. length rest.now < length line.now)) }
{
    let (token, rest) = next_solid(line)?;
    let operand = operand_of(token)?;
    match next_solid(rest) {
        None => Some((operand, None)),
        Some((Token::Comma, after)) => Some((operand, Some(after))),
        Some(_) => None,
    }
}

// The operand that a token is.
fn operand_of(token: Token<'_>) -> Option<Operand<'_>>
    ensures operand { MatchOption result (spec.operand_of (seen token.entry) ≡ None) (λ operand. spec.operand_of (seen token.entry) ≡ Some (seen_operand operand)) }
{
    match token {
        Token::Word(word) => operand_in(word),
        Token::Quoted(text) => {
            if is_text(text) {
                Some(Operand::Text(text))
            } else {
                None
            }
        }
        _ => None,
    }
}

// The operand that a word is.
fn operand_in(word: &[u8]) -> Option<Operand<'_>>
    ensures operand { MatchOption result (spec.operand_in word.now ≡ None) (λ operand. spec.operand_in word.now ≡ Some (seen_operand operand)) }
{
    if is_name(word) {
        return Some(Operand::Name(word));
    }
    match number_in(word) {
        Some(n) => Some(Operand::Number(n)),
        None => offset_in(word),
    }
}

// The operand that a word with parentheses is.
fn offset_in(word: &[u8]) -> Option<Operand<'_>>
    ensures operand { MatchOption result (spec.offset_in word.now ≡ None) (λ operand. spec.offset_in word.now ≡ Some (seen_operand operand)) }
{
    let open = parenthesis(word)?;
    if open + 1 >= word.len() || word[word.len() - 1] != b')' {
        return None;
    }
    offset_of(&word[..open], &word[open + 1..word.len() - 1])
}

// The operand of what is written before parentheses and in them.
fn offset_of<'a>(front: &[u8], name: &'a [u8]) -> Option<Operand<'a>>
    ensures operand { MatchOption result (spec.offset_of front.now name.now ≡ None) (λ operand. spec.offset_of front.now name.now ≡ Some (seen_operand operand)) }
{
    if !is_name(name) {
        return None;
    }
    match number_in(front) {
        Some(n) => Some(Operand::Offset(n, name)),
        None => {
            if is_name(front) {
                Some(Operand::NamedOffset)
            } else {
                None
            }
        }
    }
}

// The place of the first opening parenthesis.
fn parenthesis(word: &[u8]) -> Option<usize>
    ensures place { result ≡ position (λ b. b == 40) word.now }
{
    word.iter().position(|b| *b == b'(')
}
