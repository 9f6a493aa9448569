//! Tokens cut off the front of a line. Nothing is copied, and no memory is taken.

ghost use Rattle.std.specs.Prelude.{◌≡◌, ◌<◌, ◌≤◌, ◌+◌, ◌==◌, true, false, [], ◌∷◌, length, slice_index, MatchOption, IfSome, Some};
ghost use Rattle.std.specs.List.{position};
ghost use Rattle.asm_syntax.specs.Tokens as spec;
ghost use Rattle.asm_syntax.specs.CodeTokens.{seen};

/// A token of a line.
#[derive(Clone, Copy, Drop)]
pub(crate) enum Token<'a> {
    /// A space or a tab.
    Blank,
    /// A colon.
    Colon,
    /// A comma.
    Comma,
    /// Bytes between these.
    Word(&'a [u8]),
    /// What is between quotes, as it is written.
    Quoted(&'a [u8]),
    /// Quotes that aren't closed.
    Unclosed,
}

/// The first token of a line, and the line after it. There is none if nothing is left but a comment.
pub(crate) fn next_token(line: &[u8]) -> Option<(Token<'_>, &[u8])>
    ensures tokens { MatchOption result (spec.tokens_of line.now ≡ []) (λ cut. spec.tokens_of line.now ≡ seen cut.0 ∷ spec.tokens_of cut.1.now) }
    ensures shorter { IfSome result (λ cut. length cut.1.now < length line.now) }
{
    let first = *line.first()?;
    match first {
        b'#' => None,
        b'"' => Some(cut_text(&line[1..])),
        b',' => Some((Token::Comma, &line[1..])),
        b':' => Some((Token::Colon, &line[1..])),
        b' ' | b'\t' => Some((Token::Blank, &line[1..])),
        _ => Some(cut_word(line)),
    }
}

/// The first token of a line that isn't a blank, and the line after it.
pub(crate) fn next_solid(line: &[u8]) -> Option<(Token<'_>, &[u8])>
    ensures tokens { MatchOption result (spec.solid (spec.tokens_of line.now) ≡ []) (λ cut. spec.solid (spec.tokens_of line.now) ≡ seen cut.0 ∷ spec.solid (spec.tokens_of cut.1.now)) }
    ensures shorter { IfSome result (λ cut. length cut.1.now < length line.now) }
{
    let mut rest = line;
    while let Some((token, next)) = next_token(rest) {
        match token {
            Token::Blank => rest = next,
            _ => return Some((token, next)),
        }
    }
    None
}

// The word that a line begins with, and the line after it.
fn cut_word(line: &[u8]) -> (Token<'_>, &[u8])
    requires something { 0 < length line.now }
    requires word { spec.ends_word (slice_index line.now 0) ≡ false }
    ensures tokens { spec.tokens_of line.now ≡ seen result.0 ∷ spec.tokens_of result.1.now }
    ensures shorter { length result.1.now < length line.now }
{
    match word_end(line) {
        Some(i) => (Token::Word(&line[..i]), &line[i..]),
        None => (Token::Word(line), &[]),
    }
}

// The text up to its closing quote, and the line after that.
fn cut_text(line: &[u8]) -> (Token<'_>, &[u8])
    ensures tokens { spec.tokens_from spec.Inside line.now ≡ seen result.0 ∷ spec.tokens_of result.1.now }
    ensures shorter { length result.1.now ≤ length line.now }
{
    let mut escaped = false;
    for i in 0..line.len() {
        let b = line[i];
        if escaped {
            escaped = false;
        } else if b == b'\\' {
            escaped = true;
        } else if b == b'"' {
            return (Token::Quoted(&line[..i]), &line[i + 1..]);
        }
    }
    (Token::Unclosed, &[])
}

// The place of the first byte that ends a word.
fn word_end(line: &[u8]) -> Option<usize>
    ensures end { result ≡ position (λ b. spec.ends_word b) line.now }
{
    line.iter().position(|b| ends_word(*b))
}

// Whether a byte ends a word.
fn ends_word(b: u8) -> bool
    ensures ends { result ≡ spec.ends_word b }
{
    b == b' ' || b == b'\t' || b == b'#' || b == b'"' || b == b',' || b == b':'
}
