//! Why a file of the machine couldn't be fetched.

use std::fs;
use std::io::{Error, ErrorKind};
use std::rt::Files;

// What a failure of the system says of a file.
fn reason(error: &Error) -> &'static str {
    match error.kind() {
        ErrorKind::NotFound => "there is no such file",
        ErrorKind::PermissionDenied => "there is no leave to read it",
        ErrorKind::NotADirectory => "a part of its path is no directory",
        ErrorKind::FilesystemLoop => "its path leads in a circle",
        _ => "it could not be read",
    }
}

/// Why the file of this name couldn't be fetched, by what the system says of it now.
///
/// It has no clause, since no contract can say what the machine's files are; tests have its texts.
pub fn why_not_fetched(rt: &impl Files, name: &str) -> &'static str {
    match fs::metadata(rt, name) {
        Ok(found) if found.is_dir() => return "it is a directory",
        Ok(_) => {}
        Err(error) => return reason(&error),
    }
    match fs::open(rt, name) {
        Ok(_) => "it could not be read",
        Err(error) => reason(&error),
    }
}
