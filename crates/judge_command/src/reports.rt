//! The reports of a run: one for each owner of bytes that are raced for.

ghost use Rattle.std.specs.Prelude.{◌≡◌, ◌++◌, IfOk, OnOk};
ghost use Rattle.judge_command.specs.Judging as specs;
ghost use Rattle.judge_command.specs.Judging.{EndsInLine};

use crate::history::History;
use crate::owners::{Owner, Sort, add_owner, name_of, owner_of};
use crate::recent::{Recent, Spot};
use crate::telling::{add_access, add_visitor};
use crate::words::Asked;
use itoa::Buffer;
use printed_runs::Text;
use race_detector::Pair;
use replayed_run::Replay;
use std::alloc::{AllocError, Global};
use told_places::shown;

/// What is told of the data races of a run.
#[derive(Drop)]
pub(crate) struct Judgement {
    /// The text.
    pub(crate) text: Vec<u8>,
    /// How many there are, of each owner of bytes one.
    pub(crate) races: usize,
}

// A report of one owner.
#[derive(Drop)]
struct Report {
    owner: Owner,
    // Whether it is left out, as is asked.
    is_out: bool,
    text: Text,
    // How many pairs of places are told by their number alone.
    further: u64,
}

// Two places that race for bytes of the owner of a report.
#[derive(Clone, Copy)]
struct Places {
    report: usize,
    low: u32,
    high: u32,
}

/// The reports so far, in their order.
#[derive(Drop)]
pub(crate) struct Reports<'a> {
    alloc: Global,
    asked: Asked<'a>,
    reports: Vec<Report>,
    places: Vec<Places>,
    recent: Recent,
    // How many pairs of accesses were told.
    told: usize,
    // How many events were noted that may change who owns a byte.
    noted: u32,
}

impl<'a> Reports<'a> {
    /// None so far.
    pub(crate) fn new(alloc: Global, asked: Asked<'a>) -> Reports<'a> {
        Reports {
            alloc,
            asked,
            reports: Vec::new(alloc),
            places: Vec::new(alloc),
            recent: Recent::new(),
            told: 0,
            noted: 0,
        }
    }

    /// Tells the pairs of accesses that came with the last event. All pairs so far are given.
    ///
    /// # Errors
    /// Out of memory.
    pub(crate) fn tell(
        &mut self,
        pairs: &[Pair],
        history: &History,
        replay: &Replay,
    ) -> Result<(), AllocError> {
        if self.told < pairs.len() {
            let first = self.told;
            self.told = pairs.len();
            self.forget(history);
            for pair in &pairs[first..] {
                self.tell_pair(pair, history, replay)?;
            }
        }
        Ok(())
    }

    // Forgets what was told last if bytes may have other owners now.
    fn forget(&mut self, history: &History) {
        if self.noted != history.noted {
            self.noted = history.noted;
            self.recent.clear();
        }
    }

    // Tells a pair of accesses, unless it is one of the last.
    fn tell_pair(
        &mut self,
        pair: &Pair,
        history: &History,
        replay: &Replay,
    ) -> Result<(), AllocError> {
        let byte = (pair.byte % 4_294_967_296) as u32;
        let spot = Spot {
            byte,
            low: pair.first.place.min(pair.second.place),
            high: pair.first.place.max(pair.second.place),
        };
        if self.recent.has(&spot) {
            return Ok(());
        }
        self.recent.keep(spot);
        let owner = owner_of(
            byte,
            pair.second.event,
            history,
            replay.state(),
            replay.files(),
        );
        let report = self.report_of(&owner, byte, replay.files())?;
        if self.is_new(report, &spot)? {
            self.add_pair(report, pair, byte, history, replay);
        }
        Ok(())
    }

    // The report of an owner, which is made if there is none.
    fn report_of(
        &mut self,
        owner: &Owner,
        byte: u32,
        files: &[Vec<u8>],
    ) -> Result<usize, AllocError> {
        for (at, report) in self.reports.iter().enumerate() {
            if report.owner.is(owner) {
                return Ok(at);
            }
        }
        let at = self.reports.len();
        let is_out = is_left_out(&self.asked, owner, byte, files);
        let text = Text::new(self.alloc);
        self.reports.push(Report {
            owner: *owner,
            is_out,
            text,
            further: 0,
        })?;
        Ok(at)
    }

    // Whether two places of a report's owner weren't told before, which are noted.
    fn is_new(&mut self, report: usize, spot: &Spot) -> Result<bool, AllocError> {
        for places in &self.places {
            if places.report == report && places.low == spot.low && places.high == spot.high {
                return Ok(false);
            }
        }
        self.places.push(Places {
            report,
            low: spot.low,
            high: spot.high,
        })?;
        Ok(true)
    }

    // Adds a pair of accesses at new places to a report.
    fn add_pair(
        &mut self,
        report: usize,
        pair: &Pair,
        byte: u32,
        history: &History,
        replay: &Replay,
    ) {
        let pairs = self.asked.pairs;
        if let Some(report) = self.reports.get_mut(report) {
            if report.text.is_empty() {
                let owner = report.owner;
                add_head(&mut report.text, &owner, byte, history, replay);
                add_both(&mut report.text, &owner, pair, byte, history, replay);
            } else if pairs {
                let owner = report.owner;
                report.text.put("  and\n");
                add_both(&mut report.text, &owner, pair, byte, history, replay);
            } else {
                report.further = report.further.saturating_add(1);
            }
        }
    }

    /// What is told of a run of so many events.
    ///
    /// # Errors
    /// Out of memory, also if it ran out before.
    pub(crate) fn judgement(&self, events: u32) -> Result<Judgement, AllocError>
        ensures line { IfOk result (λ j. EndsInLine j.races events j.text.items) }
    {
        let races = self.count();
        let reports = self.text()?;
        let told = if races == 0 { "" } else { reports.as_str() };
        let mut text = Vec::new(self.alloc);
        text.extend_from_slice(told.as_bytes())?;
        push_last(&mut text, races, events)?;
        Ok(Judgement { text, races })
    }

    // How many reports there are, without those that are left out.
    fn count(&self) -> usize {
        let mut count = 0usize;
        for report in &self.reports {
            if !report.is_out {
                count = count.saturating_add(1);
            }
        }
        count
    }

    // The text of them all, without those that are left out.
    fn text(&self) -> Result<String, AllocError> {
        let mut text = Text::new(self.alloc);
        for report in &self.reports {
            if !report.is_out {
                text.add(&report.text);
                add_further(&mut text, report.further);
            }
        }
        text.whole()
    }
}

// Appends the last line.
#[tactic(auto, unfolding(crate::specs::Judging::last_line))]
fn push_last(text: &mut Vec<u8>, races: usize, events: u32) -> Result<(), AllocError>
    ensures line { OnOk result (text.new.items ≡ text.old.items ++ specs.last_line races events) }
{
    let mut digits = Buffer::new();
    push_count(text, races)?;
    text.extend_from_slice(b" in ")?;
    text.extend_from_slice(digits.format(events).as_bytes())?;
    if events == 1 {
        text.extend_from_slice(b" event.\n")
    } else {
        text.extend_from_slice(b" events.\n")
    }
}

// Appends how many data races there are.
#[tactic(auto, unfolding(crate::specs::Judging::count_words))]
fn push_count(text: &mut Vec<u8>, races: usize) -> Result<(), AllocError>
    ensures count { OnOk result (text.new.items ≡ text.old.items ++ specs.count_words races) }
{
    if races == 0 {
        return text.extend_from_slice(b"No data race");
    }
    if races == 1 {
        return text.extend_from_slice(b"1 data race");
    }
    let mut digits = Buffer::new();
    text.extend_from_slice(digits.format(races).as_bytes())?;
    text.extend_from_slice(b" data races")
}

// Adds the first line of a report: the owner, and the byte.
fn add_head(text: &mut Text, owner: &Owner, byte: u32, history: &History, replay: &Replay) {
    text.put("Data race");
    add_owner(text, owner, byte, history, replay.files());
    text.put(" at 0x");
    text.hex_word(byte);
    text.put(":\n");
}

// Adds how many pairs of places more there are.
fn add_further(text: &mut Text, further: u64) {
    if further != 0 {
        text.numbered("  and ", further);
        text.put(if further == 1 {
            " further pair of places\n"
        } else {
            " further pairs of places\n"
        });
    }
}

// Whether an owner is one whose name is left out.
fn is_left_out(asked: &Asked<'_>, owner: &Owner, byte: u32, files: &[Vec<u8>]) -> bool {
    match name_of(owner, byte, files) {
        Some(place) => asked.leaves_out(shown(place.name)),
        None => false,
    }
}

// Adds two accesses, and who of both is in the stack of another process.
fn add_both(
    text: &mut Text,
    owner: &Owner,
    pair: &Pair,
    byte: u32,
    history: &History,
    replay: &Replay,
) {
    add_access(text, &pair.first, byte, history, replay);
    add_access(text, &pair.second, byte, history, replay);
    let sort = owner.sort;
    if let Sort::Stack(at) = sort {
        add_visitor(text, &pair.first, at, history);
        add_visitor(text, &pair.second, at, history);
    }
}
