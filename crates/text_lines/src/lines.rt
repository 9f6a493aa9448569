//! Lines cut off the front of a text, and tokens off the front of a line. A text is gone over once.

ghost use Rattle.std.specs.Prelude.{◌≡◌, ◌<◌, ◌==◌, [], ◌∷◌, length, not, MatchOption, IfSome};
ghost use Rattle.std.specs.List.{position};
ghost use Rattle.text_lines.specs.Lines as lines;

/// The first line of a text that isn't empty, and the text after its line feed, which is shorter than the text. The lines of the text are
/// this one and those of what is after it.
pub fn first_line(text: &[u8]) -> (&[u8], &[u8])
    requires something { 0 < length text.now }
    ensures lines { lines.lines_of text.now ≡ result.0.now ∷ lines.lines_of result.1.now }
    ensures shorter { length result.1.now < length text.now }
{
    match line_feed(text) {
        Some(i) => (without_return(&text[..i]), &text[i + 1..]),
        None => (text, &[]),
    }
}

/// The first token of a line, and the line after the blank that ends it. The tokens of the line are this one, which isn't empty, and
/// those of what is after it. `None` if and only if the line has no token: it is empty, or has blanks alone.
pub fn first_token(line: &[u8]) -> Option<(&[u8], &[u8])>
    ensures tokens { MatchOption result (lines.tokens_of line.now ≡ []) (λ cut. lines.tokens_of line.now ≡ cut.0.now ∷ lines.tokens_of cut.1.now) }
    ensures something { IfSome result (λ cut. 0 < length cut.0.now) }
    ensures shorter { IfSome result (λ cut. length cut.1.now < length line.now) }
{
    let start = word_start(line)?;
    Some(cut_token(&line[start..]))
}

// The token that a line begins with, and the line after the blank that ends it.
fn cut_token(line: &[u8]) -> (&[u8], &[u8])
    requires starts { position (λ b. not (lines.is_blank b)) line.now ≡ Some 0 }
    ensures tokens { lines.tokens_of line.now ≡ result.0.now ∷ lines.tokens_of result.1.now }
    ensures something { 0 < length result.0.now }
    ensures shorter { length result.1.now < length line.now }
{
    match word_end(line) {
        Some(i) => (&line[..i], &line[i + 1..]),
        None => (line, &[]),
    }
}

// The place of the first line feed.
fn line_feed(text: &[u8]) -> Option<usize>
    ensures feed { result ≡ position (λ b. b == 10) text.now }
{
    text.iter().position(|b| *b == b'\n')
}

// The place of the first byte that isn't blank.
fn word_start(line: &[u8]) -> Option<usize>
    ensures start { result ≡ position (λ b. not (lines.is_blank b)) line.now }
{
    line.iter().position(|b| !is_blank(*b))
}

// The place of the first blank.
fn word_end(line: &[u8]) -> Option<usize>
    ensures end { result ≡ position (λ b. lines.is_blank b) line.now }
{
    line.iter().position(|b| is_blank(*b))
}

// A line without the carriage return at its end.
fn without_return(line: &[u8]) -> &[u8]
    ensures line { result.now ≡ lines.without_return line.now }
{
    match line.split_last() {
        Some((last, front)) => if *last == b'\r' { front } else { line },
        None => line,
    }
}

// Whether a byte is a space or a tab.
fn is_blank(b: u8) -> bool
    ensures blank { result ≡ lines.is_blank b }
{
    b == b' ' || b == b'\t'
}
