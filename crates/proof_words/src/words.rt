//! The arguments of the command: the lock, the address of its word, the rule, and the names of images.

ghost use Rattle.std.specs.Prelude.{◌≡◌, ◌==◌, ◌≤◌, ◌++◌, ◌∷◌, [], if◌then◌else◌, is_some, length, map, option_map, slice_index, IfOk, IfSome, None, Some};
ghost use Rattle.std.specs.String.{string_bytes};
ghost use Rattle.proof_words.specs.Reading.{asked_of, read_of};
ghost use Rattle.proof_words.specs.Words as spec;

use crate::rule::{parts_at, rule_in, small_number};
use program_logic::{Lock, Term};
use std::alloc::{AllocError, Global};

/// The most images.
const MOST_IMAGES: usize = 8;
/// The greatest number of a semaphore.
const LAST_SEMAPHORE: u64 = 127;
/// The greatest address of a word.
const LAST_WORD: u64 = 1_048_572;

/// What the arguments ask: the lock, and the names of the images.
#[derive(Drop)]
pub struct Words {
    /// The lock, with its word and its rule.
    pub lock: Lock,
    /// The names of the images.
    pub images: Vec<String>,
}

/// An option of the command.
#[derive(Clone, Copy)]
pub(crate) enum Choice {
    /// `--lock`
    Lock,
    /// `--word`
    Word,
    /// `--rule`
    Rule,
}

/// What was read so far.
#[derive(Drop)]
pub(crate) struct Reader {
    lock: Option<u32>,
    word: Option<u32>,
    rule: Option<Term>,
    /// The option whose value comes next.
    due: Option<Choice>,
    /// Whether `--` was read, after which no argument is an option.
    is_past: bool,
    images: Vec<String>,
}

/// What the arguments after the program's name ask. There is nothing unless `--lock` is a number from 1 to 127, `--word` one from 1 to 1048572,
/// `--rule` says a rule, each is there once, and one to eight images are named.
///
/// # Errors
/// Out of memory.
#[tactic(auto, unfolding(crate::specs::Words::asked))]
pub fn words_of(alloc: Global, args: &[String]) -> Result<Option<Words>, AllocError>
    ensures asked { IfOk result (λ words. option_map asked_of words ≡ spec.asked (map string_bytes args.now)) }
    ensures few { IfOk result (λ words. IfSome words (λ w. length w.images.items ≤ 8)) }
{
    let mut reader = Reader::new(alloc);
    for arg in args {
        match reader.read(alloc, arg.as_str())? {
            Some(next) => reader = next,
            None => return Ok(None),
        }
    }
    Ok(reader.words())
}

impl Reader {
    // Nothing was read.
    fn new(alloc: Global) -> Reader
        ensures nothing { read_of result ≡ spec.nothing_read }
    {
        Reader {
            lock: None,
            word: None,
            rule: None,
            due: None,
            is_past: false,
            images: Vec::new(alloc),
        }
    }

    // What was read asks something if each option was given, no value is missing, and one to eight images are named.
    fn words(self) -> Option<Words>
        ensures asked { option_map asked_of result ≡ spec.asked_by (read_of self) }
        ensures few { IfSome result (λ w. length w.images.items ≤ 8) }
    {
        if self.due.is_some() || self.images.is_empty() || self.images.len() > MOST_IMAGES {
            return None;
        }
        match (self.lock, self.word, self.rule) {
            (Some(sem), Some(word), Some(rule)) => Some(Words {
                lock: Lock { sem, word, rule },
                images: self.images,
            }),
            _ => None,
        }
    }

    // Reads an argument, if it is a good one.
    fn read(self, alloc: Global, arg: &str) -> Result<Option<Reader>, AllocError>
        ensures read { IfOk result (λ r. option_map read_of r ≡ spec.after self.due arg.now (read_of self)) }
    {
        match self.due {
            Some(choice) => Ok(Reader { due: None, ..self }.choose(choice, arg)),
            None => self.read_word(alloc, arg),
        }
    }

    // Reads an argument that is no value.
    fn read_word(self, alloc: Global, arg: &str) -> Result<Option<Reader>, AllocError>
        requires due { self.due ≡ None }
        ensures read { IfOk result (λ r. option_map read_of r ≡ spec.after None arg.now (read_of self)) }
    {
        if self.is_past {
            return self.with_image(alloc, arg);
        }
        if let Some(choice) = option_in(arg) {
            return Ok(Some(Reader {
                due: Some(choice),
                ..self
            }));
        }
        match option_with_value(arg) {
            Some((choice, value)) => Ok(self.choose(choice, value)),
            None => self.read_name(alloc, arg),
        }
    }

    // Reads `--`, or the name of an image.
    fn read_name(self, alloc: Global, arg: &str) -> Result<Option<Reader>, AllocError>
        requires due { self.due ≡ None }
        ensures read { IfOk result (λ r. option_map read_of r ≡ spec.after_word None None arg.now (read_of self)) }
    {
        if arg == "--" {
            return Ok(Some(Reader {
                is_past: true,
                ..self
            }));
        }
        if is_dashed(arg.as_bytes()) {
            return Ok(None);
        }
        self.with_image(alloc, arg)
    }

    // Takes the name of an image, if it isn't empty.
    fn with_image(self, alloc: Global, arg: &str) -> Result<Option<Reader>, AllocError>
        ensures named { IfOk result (λ r. option_map read_of r ≡ spec.named arg.now (read_of self)) }
    {
        if arg.is_empty() {
            return Ok(None);
        }
        let mut images = self.images;
        images.push(String::from_str(alloc, arg)?)?;
        Ok(Some(Reader { images, ..self }))
    }

    // Takes the value of an option, if it is a good one, and the first.
    fn choose(self, choice: Choice, value: &str) -> Option<Reader>
        ensures chosen { option_map read_of result ≡ spec.chosen choice value.now (read_of self) }
    {
        match choice {
            Choice::Lock => self.with_lock(small_number(value, LAST_SEMAPHORE)),
            Choice::Word => self.with_word(small_number(value, LAST_WORD)),
            Choice::Rule => self.with_rule(rule_in(value)),
        }
    }

    // Takes the semaphore, if there is one, and the first.
    fn with_lock(self, value: Option<u32>) -> Option<Reader>
        ensures lock { option_map read_of result ≡ (if is_some self.lock then None else option_map (λ n. record (read_of self) { lock = Some n }) value) }
    {
        if self.lock.is_some() {
            return None;
        }
        match value {
            Some(_) => Some(Reader {
                lock: value,
                ..self
            }),
            None => None,
        }
    }

    // Takes the address of the word, if there is one, and the first.
    fn with_word(self, value: Option<u32>) -> Option<Reader>
        ensures word { option_map read_of result ≡ (if is_some self.word then None else option_map (λ n. record (read_of self) { word = Some n }) value) }
    {
        if self.word.is_some() {
            return None;
        }
        match value {
            Some(_) => Some(Reader {
                word: value,
                ..self
            }),
            None => None,
        }
    }

    // Takes the rule, if there is one, and the first.
    fn with_rule(self, value: Option<Term>) -> Option<Reader>
        ensures rule { option_map read_of result ≡ (if is_some self.rule then None else option_map (λ t. record (read_of self) { rule = Some t }) value) }
    {
        if self.rule.is_some() {
            return None;
        }
        match value {
            Some(_) => Some(Reader {
                rule: value,
                ..self
            }),
            None => None,
        }
    }
}

// Whether a text begins with a hyphen.
fn is_dashed(text: &[u8]) -> bool
    ensures dashed { result ≡ (slice_index text.now 0 == 45) }
{
    match text {
        [] => false,
        [first, ..] => *first == b'-',
    }
}

// The option that an argument names.
fn option_in(arg: &str) -> Option<Choice>
    ensures names { result ≡ spec.option_in arg.now }
{
    match arg {
        "--lock" => Some(Choice::Lock),
        "--word" => Some(Choice::Word),
        "--rule" => Some(Choice::Rule),
        _ => None,
    }
}

// The option that an argument names in front of `=`, with the value after it.
fn option_with_value(arg: &str) -> Option<(Choice, &str)>
    ensures names { option_map (λ p. (p.0, p.1.now)) result ≡ spec.option_with_value arg.now }
{
    match parts_at(arg, '=') {
        Some((name, value)) => match option_in(name) {
            Some(choice) => Some((choice, value)),
            None => None,
        },
        None => None,
    }
}
