//! What is told on standard error after a call.

use ng_app::read_app;
use ng_ast::App;
use ng_diagnoses::{
    NotedShelf, NotedSink, Refused, Source, diagnosis, why_not_fetched, wrong_words,
};
use ng_outside::{Shelf, Sink};
use std::alloc::{AllocError, Global};
use std::rt::Files;

// The most bytes of an application that is read.
const APP_LIMIT: usize = 1_048_576;

// The application that these bytes are, if they are one.
fn app_of(alloc: Global, bytes: Option<&[u8]>) -> Option<App> {
    match bytes {
        Some(bytes) if bytes.len() <= APP_LIMIT => read_app(alloc, bytes).ok(),
        _ => None,
    }
}

// The text that stands at the front of these bytes.
fn front_of(bytes: &[u8]) -> &str {
    let fault = match str::from_utf8(bytes) {
        Ok(text) => return text,
        Err(fault) => fault,
    };
    match bytes.get(..fault.valid_up_to()) {
        Some(front) => str::from_utf8(front).unwrap_or(""),
        None => "",
    }
}

// The diagnosis of the file that was fetched last, by the line that refuses it.
fn refusal<H: Shelf + Drop>(
    alloc: Global,
    line: &str,
    shelf: &NotedShelf<H>,
) -> Result<String, AllocError> {
    let Some(refused) = Refused::of(line) else {
        return Ok(String::new(alloc));
    };
    let app = app_of(alloc, shelf.bytes());
    let source = Source {
        name: shelf.name().unwrap_or("the file"),
        bytes: shelf.bytes(),
        app: app.as_ref(),
    };
    diagnosis(alloc, &refused, source)
}

// What is wrong with words that were refused. There are none where they aren't text.
fn wrong(alloc: Global, words: &Option<Vec<String>>) -> Result<String, AllocError> {
    match words {
        Some(words) => wrong_words(alloc, words),
        None => String::from_str(alloc, "a word isn't UTF-8"),
    }
}

// What is told after a call that ended with this status.
fn text<R: Files + AllocGlobal, H: Shelf + Drop, K: Sink + Drop>(
    rt: &R,
    status: u8,
    words: &Option<Vec<String>>,
    shelf: &NotedShelf<H>,
    sink: &NotedSink<K>,
) -> Result<String, AllocError> {
    let alloc = rt.alloc();
    match status {
        1 => String::from_str(alloc, "ivy: memory ran out\n"),
        2 => {
            let wrong = wrong(alloc, words)?;
            format!(in alloc; "ivy: {wrong}\n")
        }
        3 => refusal(alloc, front_of(sink.front()), shelf),
        5 => {
            let name = shelf.name().unwrap_or("the file");
            let reason = why_not_fetched(rt, name);
            format!(in alloc; "ivy: {name}: {reason}\n")
        }
        6 => String::from_str(
            alloc,
            "ivy: standard output takes no more: what it took is a beginning of the output\n",
        ),
        _ => Ok(String::new(alloc)),
    }
}

/// Tells on standard error why a call ended with this status. Where that can't be told either, nothing more can be done.
pub(crate) fn tell<R: Files + AllocGlobal + Eprint, H: Shelf + Drop, K: Sink + Drop>(
    rt: &R,
    status: u8,
    words: &Option<Vec<String>>,
    shelf: &NotedShelf<H>,
    sink: &NotedSink<K>,
) {
    match text(rt, status, words, shelf, sink) {
        Ok(text) => {
            let _ = rt.eprint(text.as_str());
        }
        Err(_) => {
            let _ = rt.eprint("ivy: memory ran out\n");
        }
    }
}
