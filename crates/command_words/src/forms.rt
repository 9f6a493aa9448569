//! What an argument is before the first `--`.

ghost use Rattle.std.specs.Prelude.{◌≡◌, ◌∷◌};
ghost use Rattle.command_words.specs.Forms.{form_named};
ghost use Rattle.command_line.specs.Reading as reading;

/// What an argument is before the first `--`.
#[derive(Clone, Copy)]
pub(crate) enum ArgForm<'a> {
    /// `--`
    EndMark,
    /// `--x`, or `--x=v` with its value.
    Naming(&'a str, Option<&'a str>),
    /// Another argument of two or more characters with a leading hyphen.
    Dashed,
    /// Any other argument, a lone hyphen among them.
    Bare,
}

/// What an argument is.
pub(crate) fn form_of<'a>(arg: &'a str) -> ArgForm<'a>
    ensures form { form_named result ≡ reading.arg_of arg.entry.now }
{
    match arg.strip_prefix('-') {
        Some(rest) => form_behind(rest),
        None => ArgForm::Bare,
    }
}

// What an argument is that goes on so after a hyphen.
fn form_behind<'a>(rest: &'a str) -> ArgForm<'a>
    ensures form { form_named result ≡ reading.arg_of (45 ∷ rest.entry.now) }
{
    match rest.strip_prefix('-') {
        Some(text) => named(text),
        None => {
            if rest.is_empty() {
                ArgForm::Bare
            } else {
                ArgForm::Dashed
            }
        }
    }
}

// What an argument is that goes on so after two hyphens.
fn named<'a>(text: &'a str) -> ArgForm<'a>
    ensures form { form_named result ≡ reading.named_arg text.entry.now }
{
    if text.is_empty() {
        return ArgForm::EndMark;
    }
    match text.split_once('=') {
        Some((name, value)) => ArgForm::Naming(name, Some(value)),
        None => ArgForm::Naming(text, None),
    }
}
