//! The legend: what the bands and the marks stand for.

use crate::ink::{arrow, bar, path, width_of, words};
use crate::layout::MARGIN;
use printed_runs::Text;

/// How high the legend is.
pub(crate) const LEGEND: u32 = 44;

/// The letters of the bands, and what they stand for.
const BANDS: [(&str, &str); 8] = [
    ("C", "current"),
    ("R", "ready"),
    ("M", "receiving"),
    ("T", "timed"),
    ("S", "sleeping"),
    ("W", "waiting"),
    ("U", "suspended"),
    ("I", "null process, idle"),
];

/// Draws the legend at this height.
pub(crate) fn draw_legend(ink: &mut Text, y: u32) {
    let mut x = MARGIN;
    for (letter, name) in BANDS {
        x = draw_band(ink, (x, y), letter, name);
    }
    draw_marks(ink, y.saturating_add(22));
}

// Draws a piece of a band with its letter and what it stands for, and answers where the next entry begins.
fn draw_band(ink: &mut Text, (x, y): (u32, u32), letter: &str, name: &str) -> u32 {
    let class = if letter == "C" { "v" } else { "w" };
    bar(ink, letter, (x, y), (20, 13));
    words(
        ink,
        class,
        x.saturating_add(7),
        y.saturating_add(10),
        letter,
    );
    entry(ink, x.saturating_add(26), y, name)
}

// Draws the marks and what they stand for.
fn draw_marks(ink: &mut Text, y: u32) {
    let down = y.saturating_add(3);
    path(ink, "c", MARGIN + 4, down, "l5 3.5-5 3.5z");
    let x = entry(ink, MARGIN + 18, y, "call = reply");
    path(ink, "r", x.saturating_add(9), down, "l-5 3.5 5 3.5z");
    let x = entry(ink, x.saturating_add(18), y, "reply");
    path(
        ink,
        "t",
        x.saturating_add(8),
        down,
        "l-3 4h2l-1 4 4-5h-2l2-3z",
    );
    let x = entry(ink, x.saturating_add(18), y, "trap");
    path(
        ink,
        "d",
        x.saturating_add(3),
        y.saturating_add(2),
        "l8 8m0-8l-8 8",
    );
    let x = entry(ink, x.saturating_add(18), y, "death");
    let start = (x.saturating_add(6), y.saturating_add(1));
    arrow(ink, start, y.saturating_add(13), "l-3 -5h6l-3 5");
    let x = entry(ink, x.saturating_add(18), y, "makes ready");
    path(ink, "g", x.saturating_add(1), y, "h13v13h-13z");
    let quiet = "+n: n plain steps (n*: n events in which nothing happens)";
    entry(ink, x.saturating_add(18), y, quiet);
}

// Writes a text of the legend, and answers where the next entry begins.
fn entry(ink: &mut Text, x: u32, y: u32, text: &str) -> u32 {
    words(ink, "s", x, y.saturating_add(10), text);
    let width = width_of(text.len(), 60);
    x.saturating_add(width).saturating_add(22)
}
