//! A line of a file as it is shown, and where in it a place stands.

ghost use Rattle.std.specs.Prelude.{◌≤◌};

use std::alloc::{AllocError, Global};
use unicode_width::UnicodeWidthChar;

// The columns of a terminal that are shown of a line at most.
const MOST: usize = 120;

// How far to the right a place may stand with the line's front before it.
const WITH_FRONT: usize = 90;

// The columns that are shown before a place that stands further to the right.
const LEAD: usize = 60;

// What stands for a part of a line that is left out.
const CUT: &str = "...";

/// What is shown of a line, and how many columns of it stand before a place.
#[derive(Drop)]
pub(crate) struct Excerpt {
    pub(crate) text: String,
    pub(crate) before: usize,
}

// The columns of a line that are shown: those from the first up to before the second.
#[derive(Clone, Copy)]
struct Window {
    from: usize,
    to: usize,
}

// How many columns a character takes as it is shown: a tab four, and a character that can't be shown one.
fn columns_of(letter: char) -> usize
    ensures { result ≤ 4 }
{
    match letter {
        '\t' => 4,
        _ => letter.width().unwrap_or(1),
    }
}

// Adds a character as it is shown.
pub(crate) fn push_shown(text: &mut String, letter: char) -> Result<(), AllocError> {
    match letter {
        '\t' => text.push_str("    "),
        _ if letter.width().is_some() => text.push(letter),
        _ => text.push('\u{FFFD}'),
    }
}

/// Adds so many spaces.
pub(crate) fn push_spaces(text: &mut String, count: usize) -> Result<(), AllocError> {
    for _ in 0..count {
        text.push(' ')?;
    }
    Ok(())
}

// The columns that so many characters of a line take.
fn columns_before(line: &str, count: usize) -> usize {
    let mut columns = 0usize;
    for letter in line.chars().take(count) {
        columns = columns.saturating_add(columns_of(letter));
    }
    columns
}

// The columns that are shown of a line in which a place has so many columns before it.
fn window_for(before: usize) -> Window {
    let from = if before > WITH_FRONT {
        before - LEAD
    } else {
        0
    };
    Window {
        from,
        to: from.saturating_add(MOST),
    }
}

// Adds what is shown of a character between these columns of its line.
fn push_part(
    text: &mut String,
    letter: char,
    at: usize,
    next: usize,
    window: Window,
) -> Result<(), AllocError> {
    if at >= window.from {
        return push_shown(text, letter);
    }
    push_spaces(text, next.saturating_sub(window.from))
}

// What of a line stands in these columns. What is left out at its end is marked.
fn push_window(text: &mut String, line: &str, window: Window) -> Result<(), AllocError> {
    let mut at = 0usize;
    for letter in line.chars() {
        let next = at.saturating_add(columns_of(letter));
        if next > window.to {
            return text.push_str(CUT);
        }
        push_part(text, letter, at, next, window)?;
        at = next;
    }
    Ok(())
}

/// What is shown of a line with a place behind so many of its characters.
pub(crate) fn excerpt_at(alloc: Global, line: &str, count: usize) -> Result<Excerpt, AllocError> {
    let before = columns_before(line, count);
    let window = window_for(before);
    let mut text = String::new(alloc);
    if window.from > 0 {
        text.push_str(CUT)?;
    }
    let front = text.len();
    push_window(&mut text, line, window)?;
    Ok(Excerpt {
        text,
        before: before.saturating_sub(window.from).saturating_add(front),
    })
}

/// The line of a text with this number, from 1, without what ends it.
pub(crate) fn line_of(text: &str, number: u32) -> Option<&str> {
    let text = text.strip_prefix('\u{FEFF}').unwrap_or(text);
    let mut left = number;
    for line in text.split('\n') {
        if left <= 1 {
            return Some(line.strip_suffix('\r').unwrap_or(line));
        }
        left -= 1;
    }
    None
}
