//! The diagnosis of a refused file.

use crate::excerpt::{excerpt_at, line_of, push_shown, push_spaces};
use crate::names::names_for;
use crate::refused::{Kind, Refused, Spot};
use crate::rules::{help_for, sentence_for};
use crate::spelling::nearest;
use ng_ast::{App, Decl};
use std::alloc::{AllocError, Global};

// The characters that are told of a name at most.
const MOST: usize = 60;

/// The refused file: its name, and where they are known its bytes and the application that they are.
#[derive(Clone, Copy)]
pub struct Source<'a> {
    pub name: &'a str,
    pub bytes: Option<&'a [u8]>,
    pub app: Option<&'a App>,
}

// Adds a name of the file on one line, or the beginning of a long one.
fn push_name(text: &mut String, name: &str) -> Result<(), AllocError> {
    for (index, letter) in name.chars().enumerate() {
        if index == MOST {
            return text.push_str("...");
        }
        push_shown(text, letter)?;
    }
    Ok(())
}

// Whether an application names no root component.
fn is_without_root(app: &App) -> bool {
    for decl in app.decls.as_slice() {
        if let Decl::Bootstrap(_, _, _) = decl {
            return false;
        }
    }
    true
}

// Whether what is missing is a root component.
fn is_missing_root(refused: &Refused, app: Option<&App>) -> bool {
    match (refused.kind, app) {
        (Kind::Rule(1), Some(app)) => is_without_root(app),
        _ => false,
    }
}

// What the first line says behind the title.
fn push_sentence(
    text: &mut String,
    refused: &Refused,
    app: Option<&App>,
) -> Result<(), AllocError> {
    if is_missing_root(refused, app) {
        return text.push_str("there is no `bootstrap`");
    }
    let (before, behind) = sentence_for(refused.kind, refused.is_app);
    text.push_str(before)?;
    push_name(text, refused.name)?;
    text.push_str(behind)
}

// The first line: what is refused, in a sentence.
fn push_title(text: &mut String, refused: &Refused, app: Option<&App>) -> Result<(), AllocError> {
    text.push_str("error[")?;
    text.push_str(refused.title)?;
    text.push_str("]: ")?;
    push_sentence(text, refused, app)?;
    text.push_str("\n")
}

// The place of the first byte that is no UTF-8.
fn spot_of_fault(bytes: &[u8]) -> Option<Spot> {
    let fault = str::from_utf8(bytes).err()?;
    let front = bytes.get(..fault.valid_up_to())?;
    let front = str::from_utf8(front).ok()?;
    let mut line = 1u32;
    let mut column = 1u32;
    for letter in front.chars() {
        if letter == '\n' {
            line = line.saturating_add(1);
            column = 1;
        } else if letter != '\u{FEFF}' {
            column = column.saturating_add(1);
        }
    }
    Some(Spot { line, column })
}

// The place that is told: that of the refusal, or for a file that isn't UTF-8 that of its first wrong byte.
fn spot_told(refused: &Refused, source: Source) -> Option<Spot> {
    match refused.kind {
        Kind::Utf8 => spot_of_fault(source.bytes?),
        _ => refused.spot,
    }
}

// The line of a file, with a mark under a place.
fn push_excerpt(
    alloc: Global,
    text: &mut String,
    line: &str,
    spot: Spot,
    margin: usize,
) -> Result<(), AllocError> {
    let shown = excerpt_at(alloc, line, spot.column.saturating_sub(1) as usize)?;
    let number = spot.line;
    push_spaces(text, margin)?;
    text.push_str(" |\n")?;
    let head = format!(in alloc; "{number} | ")?;
    text.push_str(head.as_str())?;
    text.push_str(shown.text.as_str())?;
    text.push_str("\n")?;
    push_spaces(text, margin)?;
    text.push_str(" | ")?;
    push_spaces(text, shown.before)?;
    text.push_str("^\n")
}

// The line of a file in which a place stands, if the file is known and is text.
fn line_at(source: Source, spot: Spot) -> Option<&str> {
    let text = str::from_utf8(source.bytes?).ok()?;
    line_of(text, spot.line)
}

// A line that says what can be done.
fn push_help(text: &mut String, margin: usize, help: &str) -> Result<(), AllocError> {
    push_spaces(text, margin)?;
    text.push_str(" = help: ")?;
    text.push_str(help)?;
    text.push_str("\n")
}

// The line that names the nearest name, if the rule asks for one and one is near.
fn push_nearest(
    alloc: Global,
    text: &mut String,
    refused: &Refused,
    source: Source,
    margin: usize,
) -> Result<(), AllocError> {
    let (Kind::Rule(rule), Some(app), Some(spot)) = (refused.kind, source.app, refused.spot) else {
        return Ok(());
    };
    if is_missing_root(refused, source.app) {
        return Ok(());
    }
    let names = names_for(alloc, app, rule, spot)?;
    let Some(index) = nearest(alloc, &names, refused.name)? else {
        return Ok(());
    };
    let Some(name) = names.get(index) else {
        return Ok(());
    };
    let help = format!(in alloc; "did you mean `{name}`?")?;
    push_help(text, margin, help.as_str())
}

/// What a person reads of a refused file: what is refused and why, the place, the line of the file with a mark under the place, and what can be done.
///
/// It has no clause: it is printed text for people, on which no answer of the program rests; tests have it for every rule.
pub fn diagnosis(alloc: Global, refused: &Refused, source: Source) -> Result<String, AllocError> {
    let mut text = String::new(alloc);
    push_title(&mut text, refused, source.app)?;
    let mut margin = 1;
    match spot_told(refused, source) {
        Some(spot) => {
            let line = spot.line;
            let column = spot.column;
            let number = format!(in alloc; "{line}")?;
            margin = number.len();
            push_spaces(&mut text, margin)?;
            let arrow = format!(in alloc; "--> {}:{line}:{column}\n", source.name)?;
            text.push_str(arrow.as_str())?;
            if let Some(line) = line_at(source, spot) {
                push_excerpt(alloc, &mut text, line, spot, margin)?;
            }
        }
        None => {
            text.push_str(" --> ")?;
            text.push_str(source.name)?;
            text.push_str("\n")?;
        }
    }
    push_nearest(alloc, &mut text, refused, source, margin)?;
    if let Some(help) = help_for(refused.kind, refused.is_app) {
        push_help(&mut text, margin, help)?;
    }
    Ok(text)
}
