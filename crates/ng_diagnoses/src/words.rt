//! What is wrong with the words of a call.

use crate::spelling::nearest;
use std::alloc::{AllocError, Global};

// The flags of a run.
const FLAGS: [&str; 4] = ["--every", "--ops", "--report", "--trace"];

// The words that say what to do.
const COMMANDS: [&str; 4] = ["run", "check", "compile", "gen"];

// The words that were given: the flags, and the others, each in their order.
#[derive(Drop)]
struct Given<'a> {
    flags: Vec<&'a str>,
    others: Vec<&'a str>,
}

// Whether a word is one of these.
fn is_among(words: &[&str], word: &str) -> bool {
    words.iter().any(|&known| known == word)
}

// A word that isn't known, and which of these is nearest to it.
fn unknown(alloc: Global, what: &str, word: &str, known: &[&str]) -> Result<String, AllocError> {
    let mut text = format!(in alloc; "there is no {what} `{word}`")?;
    if let Some(index) = nearest(alloc, known, word)? {
        if let Some(name) = known.get(index) {
            let near = format!(in alloc; "; did you mean `{name}`?")?;
            text.push_str(near.as_str())?;
        }
    }
    Ok(text)
}

// What is wrong with a flag behind these ones.
fn wrong_flag(alloc: Global, flag: &str, earlier: &[&str]) -> Result<Option<String>, AllocError> {
    if flag == "-h" || flag == "--help" {
        let text = "the usage is all the help that there is; README.md says what the words do";
        return Ok(Some(String::from_str(alloc, text)?));
    }
    let (name, has_value) = match flag.split_once('=') {
        Some((name, _)) => (name, true),
        None => (flag, false),
    };
    if !is_among(&FLAGS, name) {
        return Ok(Some(unknown(alloc, "flag", flag, &FLAGS)?));
    }
    if has_value {
        return Ok(Some(format!(in alloc; "the flag `{name}` takes no value")?));
    }
    if is_among(earlier, flag) {
        return Ok(Some(format!(in alloc; "the flag `{flag}` is given twice")?));
    }
    Ok(None)
}

// Sorts the words into flags and others, up to a flag that is wrong by itself.
fn sort<'a>(
    alloc: Global,
    words: &'a [String],
    given: &mut Given<'a>,
) -> Result<Option<String>, AllocError> {
    let mut is_behind_dashes = false;
    for word in words {
        let word = word.as_str();
        if is_behind_dashes || word == "-" || !word.starts_with('-') {
            given.others.push(word)?;
        } else if word == "--" {
            is_behind_dashes = true;
        } else {
            let wrong = wrong_flag(alloc, word, &given.flags)?;
            if wrong.is_some() {
                return Ok(wrong);
            }
            given.flags.push(word)?;
        }
    }
    Ok(None)
}

// What is wrong with the words of a check.
fn wrong_check(alloc: Global, given: &Given) -> Result<String, AllocError> {
    if let Some(flag) = given.flags.first() {
        return format!(in alloc; "`check` takes no flag, and so no `{flag}`");
    }
    match given.others.get(2) {
        Some(word) => format!(in alloc; "`check` takes one file: `{word}` is one too many"),
        None => String::from_str(alloc, "APP is missing: `check` takes the name of a file"),
    }
}

// What is wrong with the words of a run.
fn wrong_run(alloc: Global, given: &Given) -> Result<String, AllocError> {
    match given.others.len() {
        0 | 1 => return String::from_str(
            alloc,
            "APP is missing: `run` takes the names of two files",
        ),
        2 => return String::from_str(
            alloc,
            "EVENTS is missing: `run` takes the names of two files",
        ),
        _ => {}
    }
    match given.flags.iter().find(|flag| **flag != "--every") {
        Some(flag) => format!(in alloc; "the flag `{flag}` isn't there yet"),
        None => String::from_str(alloc, "a run without `--every` isn't there yet"),
    }
}

// What is wrong with words whose flags are in order.
fn wrong_order(alloc: Global, given: &Given) -> Result<String, AllocError> {
    let Some(command) = given.others.first() else {
        return String::from_str(alloc, "no word says what to do");
    };
    if !is_among(&COMMANDS, command) {
        return unknown(alloc, "word", command, &COMMANDS);
    }
    if let Some(word) = given.others.get(3) {
        return format!(in alloc; "`{word}` is one word too many");
    }
    match *command {
        "check" => wrong_check(alloc, given),
        "run" => wrong_run(alloc, given),
        other => format!(in alloc; "`{other}` isn't there yet"),
    }
}

/// What is wrong with words that are refused.
///
/// It has no clause: it is printed text for people, on which no answer of the program rests; tests have it for each kind of wrong words.
pub fn wrong_words(alloc: Global, words: &[String]) -> Result<String, AllocError> {
    let mut given = Given {
        flags: Vec::new(alloc),
        others: Vec::new(alloc),
    };
    match sort(alloc, words, &mut given)? {
        Some(wrong) => Ok(wrong),
        None => wrong_order(alloc, &given),
    }
}
