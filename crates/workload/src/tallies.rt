//! What is counted of the text of a run, and the line that says it.

ghost use Rattle.std.specs.Prelude.{◌≡◌, ◌+◌, ◌<◌, IfOk};
ghost use Rattle.std.specs.String.{string_bytes};
ghost use Rattle.text_lines.specs.Lines.{tokens_of};
ghost use Rattle.workload.specs.Summaries as spec;

use std::alloc::Global;
use std::marker::Model;
use text_lines::{first_line, first_token};
use xinu_base::{End, NoMemory};

/// What was counted of texts, one after another. A clause sees the counts, and how many texts there were.
#[derive(Drop)]
pub struct Tally {
    calls: u128,
    replies: u128,
    switches: u128,
    sent: u128,
    texts: u32,
}

impl Model for Tally {
    ghost use Rattle.workload.specs.Tallies.{Tallied, tallied_of, IsTally};

    ghost Value = { Tallied };

    ghost view = { tallied_of };

    ghost invariant = { IsTally };
}

impl Tally {
    /// Nothing is counted yet.
    pub fn new() -> Self
        ensures counts { result.counts ≡ record { calls = 0; replies = 0; switches = 0; sent = 0 } }
        ensures texts { result.texts ≡ 0 }
    {
        Tally {
            calls: 0,
            replies: 0,
            switches: 0,
            sent: 0,
            texts: 0,
        }
    }

    /// Counts the lines of one more text: calls, replies, lines of the process that runs, and bytes that the console sent. Fewer than
    /// 4294967295 texts were counted before.
    pub fn add(&mut self, text: &[u8])
        requires few { self.old.texts < 4294967295 }
        ensures counts { self.new.counts ≡ spec.added self.old.counts (spec.counts_of text.now) }
        ensures texts { self.new.texts ≡ self.old.texts + 1 }
    {
        self.calls += lines_with(b"call", text) as u128;
        self.replies += lines_with(b"ret", text) as u128;
        self.switches += lines_with(b"run", text) as u128;
        self.sent += lines_with(b"con", text) as u128;
        self.texts += 1;
    }

    /// The line that sums up a run that a number gave: how many events it took, what was counted of its texts, and how it ended.
    ///
    /// # Errors
    /// `NoMemory`.
    pub fn summary(
        &self,
        alloc: Global,
        seed: u32,
        events: u32,
        end: End,
    ) -> Result<String, NoMemory>
        ensures line { IfOk result (λ line. string_bytes line ≡ spec.summary seed events self.now.counts end) }
    {
        match format!(in alloc;
            "soak {seed} events {events} calls {} rets {} switches {} con {} end {}\n",
            self.calls,
            self.replies,
            self.switches,
            self.sent,
            end.name()
        ) {
            Ok(line) => Ok(line),
            Err(_) => Err(NoMemory),
        }
    }
}

// How many lines of a text have this first word.
fn lines_with(word: &[u8], text: &[u8]) -> u64
    ensures lines { result ≡ spec.lines_with word.now text.now }
{
    let mut count = 0;
    let mut rest = text;
    while !rest.is_empty() {
        let (line, next) = first_line(rest);
        if begins_with(line, word) {
            count += 1;
        }
        rest = next;
    }
    count
}

// Whether the first word of a line is this one.
fn begins_with(line: &[u8], word: &[u8]) -> bool
    ensures begins { result ≡ spec.begin_with word.now (tokens_of line.now) }
{
    match first_token(line) {
        Some((token, _)) => token == word,
        None => false,
    }
}
