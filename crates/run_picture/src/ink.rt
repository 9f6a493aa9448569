//! The elements of an SVG document, and the texts in them.

use printed_runs::Text;

/// The end of an element of words.
pub(crate) const END: &str = "</text>\n";

/// Writes a coordinate after some text.
pub(crate) fn at(ink: &mut Text, before: &str, place: u32) {
    ink.numbered(before, place as u64);
}

/// Writes a text as the content of an element.
pub(crate) fn content(ink: &mut Text, text: &str) {
    for c in text.chars() {
        match c {
            '&' => ink.put("&amp;"),
            '<' => ink.put("&lt;"),
            '>' => ink.put("&gt;"),
            _ => ink.character(c),
        }
    }
}

/// Writes the number of an event as an attribute of an element that has begun, if there is one.
pub(crate) fn event_of(ink: &mut Text, event: Option<u64>) {
    if let Some(number) = event {
        ink.numbered(" data-event=\"", number);
        ink.put("\"");
    }
}

/// Begins an element of words at a place, in a class; in none if its name is empty.
pub(crate) fn begin_words(ink: &mut Text, class: &str, x: u32, y: u32) {
    ink.put("<text");
    place_words(ink, class, x, y);
}

/// Goes on with an element of words, at a place and in a class.
pub(crate) fn place_words(ink: &mut Text, class: &str, x: u32, y: u32) {
    if !class.is_empty() {
        ink.put(" class=\"");
        ink.put(class);
        ink.put("\"");
    }
    at(ink, " x=\"", x);
    at(ink, "\" y=\"", y);
    ink.put("\">");
}

/// Writes a text at a place, in a class.
pub(crate) fn words(ink: &mut Text, class: &str, x: u32, y: u32, text: &str) {
    begin_words(ink, class, x, y);
    content(ink, text);
    ink.put(END);
}

/// Begins a path, in a class.
pub(crate) fn begin_path(ink: &mut Text, class: &str) {
    ink.put("<path class=\"");
    ink.put(class);
    ink.put("\" d=\"");
}

/// Ends a path, with this as its last piece.
pub(crate) fn end_path(ink: &mut Text, rest: &str) {
    ink.put(rest);
    ink.put("\"/>\n");
}

/// Writes a path that begins at a place, in a class.
pub(crate) fn path(ink: &mut Text, class: &str, x: u32, y: u32, rest: &str) {
    begin_path(ink, class);
    at(ink, "M", x);
    at(ink, " ", y);
    end_path(ink, rest);
}

/// Writes a path that begins at a place, goes straight up or down to a height and ends in a head of an arrow, in a class.
pub(crate) fn arrow(ink: &mut Text, (x, y): (u32, u32), end: u32, head: &str) {
    begin_path(ink, "l");
    at(ink, "M", x);
    at(ink, " ", y);
    at(ink, "V", end);
    end_path(ink, head);
}

/// Writes a rectangle, in a class.
pub(crate) fn bar(ink: &mut Text, class: &str, (x, y): (u32, u32), (width, height): (u32, u32)) {
    begin_path(ink, class);
    at(ink, "M", x);
    at(ink, " ", y);
    at(ink, "h", width);
    at(ink, "v", height);
    at(ink, "h-", width);
    end_path(ink, "z");
}

/// Writes a path, in a class; nothing if it is empty.
pub(crate) fn outline(ink: &mut Text, class: &str, path: &Text) {
    if !path.is_empty() {
        begin_path(ink, class);
        ink.add(path);
        end_path(ink, "");
    }
}

/// Writes a title: what a browser shows of the elements beside it.
pub(crate) fn title(ink: &mut Text, head: &str, lines: &str) {
    ink.put("<title>");
    content(ink, head);
    for line in lines.lines().take(16) {
        ink.put("\n");
        content(ink, line);
    }
    if lines.lines().count() > 16 {
        ink.put("\n..");
    }
    ink.put("</title>\n");
}

/// How wide a text of these many characters is, in a font whose characters are this many tenths wide.
pub(crate) fn width_of(characters: usize, tenths: u32) -> u32 {
    let characters = u32::try_from(characters).unwrap_or(1000);
    characters.saturating_mul(tenths).saturating_add(9) / 10
}
