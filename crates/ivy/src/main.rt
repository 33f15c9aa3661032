//! The program `ivy`: the call `ng_cli::ivy` over the machine's files and its standard output. Why a call gave no answer is told on standard
//! error.
#![tactic(auto)]

mod telling;

use ng_cli::ivy;
use ng_diagnoses::{NotedShelf, NotedSink};
use ng_outside::{HostShelf, HostSink};
use std::env;
use std::io::{self, ErrorKind};
use std::process::ExitCode;
use std::rt::Env;
use telling::tell;

// The words behind the program's name, if they are text.
fn words(rt: &(impl Env + AllocGlobal)) -> io::Result<Option<Vec<String>>> {
    let mut words = Vec::new(rt.alloc());
    match env::args(rt) {
        Ok(all) => {
            for word in all.skip(1) {
                words.push(word)?;
            }
            Ok(Some(words))
        }
        Err(error) if error.kind() == ErrorKind::InvalidData => Ok(None),
        Err(error) => Err(error),
    }
}

// The words as a slice. Words that aren't text are as good as none.
fn slice_of(words: &Option<Vec<String>>) -> &[String] {
    match words {
        Some(words) => words.as_slice(),
        None => &[],
    }
}

fn main(rt: HostRuntime) -> io::Result<ExitCode> {
    let words = words(&rt)?;
    let mut shelf = NotedShelf::new(HostShelf::new(&rt));
    let mut sink = NotedSink::new(rt.alloc(), HostSink::new(&rt));
    let status = ivy(rt.alloc(), slice_of(&words), &mut shelf, &mut sink);
    tell(&rt, status, &words, &shelf, &sink);
    Ok(ExitCode::from(status))
}
